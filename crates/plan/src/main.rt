// plan [FILE]: reads a hall from a file or from standard input, and prints how its load can be brought from start to goal.
#![tactic(auto)]

use std::env;
use std::io::Read;
use std::process::ExitCode;
use text::console::{conclude, read_file, status, taken};
use text::plans::reply_of;
use text::replies::plan_reply;

fn input(rt: &HostRuntime) -> anyhow::Result<Vec<u8>> {
    match env::args(rt)?.nth(1) {
        Some(name) => read_file(rt, name.as_str()),
        None => {
            let mut bytes = Vec::new(rt.alloc());
            taken(rt, "standard input", rt.stdin().read_to_end(&mut bytes))?;
            Ok(bytes)
        }
    }
}

fn run(rt: &HostRuntime) -> anyhow::Result<()> {
    let bytes = input(rt)?;
    let planned = plan_reply(rt.alloc(), bytes.as_slice());
    conclude(rt, reply_of(&planned))
}

fn main(rt: HostRuntime) -> ExitCode {
    status(run(&rt))
}

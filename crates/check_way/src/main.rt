// check_way HALL WAY: reads a hall and a way from files, and prints whether the way can be driven.
#![tactic(auto)]

use anyhow::anyhow;
use std::env;
use std::process::ExitCode;
use text::console::{conclude, read_file, status};
use text::replies::check_reply;

fn run(rt: &HostRuntime) -> anyhow::Result<()> {
    let mut words = env::args(rt)?.skip(1);
    let (Some(hall), Some(way)) = (words.next(), words.next()) else {
        eprintln!(rt; "check_way takes two files: a hall and a way")?;
        return Err(anyhow!("two files are wanted"));
    };
    let hall_bytes = read_file(rt, hall.as_str())?;
    let way_bytes = read_file(rt, way.as_str())?;
    conclude(
        rt,
        check_reply(rt.alloc(), hall_bytes.as_slice(), way_bytes.as_slice()),
    )
}

fn main(rt: HostRuntime) -> ExitCode {
    status(run(&rt))
}

// What the programs do with files and streams. No contract can speak of those, only of what ends in an error, and of the status.
ghost use Rattle.std.specs.Prelude.{◌≡◌, Ok, IfOk, IsOk, IsErr, OnOk, OnErr};
ghost use Rattle.std.specs.Process.{exit_status};

use crate::answers::Answer;
use crate::rendering::render;
use hall::refusals::Refusal;
use std::process::ExitCode;
use std::{fs, io};

// What was read from a source. Where that can't be read, standard error says which and why.
pub fn taken<T: Drop>(rt: &HostRuntime, source: &str, read: io::Result<T>) -> anyhow::Result<T>
    ensures same { IfOk result (λ x. read ≡ Ok x) }
    ensures ok { OnOk read (IsOk result) }
{
    if let Err(why) = &read {
        eprintln!(rt; "{source}: {why}")?;
    }
    Ok(read?)
}

// The bytes of a file.
pub fn read_file(rt: &HostRuntime, name: &str) -> anyhow::Result<Vec<u8>> {
    taken(rt, name, fs::read(rt, name))
}

// Prints a reply; a refusal ends the program with an error.
pub fn conclude(rt: &HostRuntime, reply: Result<Answer, Refusal>) -> anyhow::Result<()>
    ensures { OnErr reply.entry (IsErr result) }
{
    let text = render(rt.alloc(), reply)?;
    print!(rt; "{text}")?;
    reply?;
    Ok(())
}

// The status of a program that ends so. What is wrong was told where it was met, so an error is only a status here.
pub fn status(outcome: anyhow::Result<()>) -> ExitCode
    ensures ok { OnOk outcome (exit_status result ≡ 0) }
    ensures err { OnErr outcome (exit_status result ≡ 1) }
{
    match outcome {
        Ok(()) => ExitCode::SUCCESS,
        Err(_) => ExitCode::FAILURE,
    }
}

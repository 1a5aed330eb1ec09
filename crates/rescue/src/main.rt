//! `rescue FOLDER COMMAND ..` runs the command over the files of the folder, writes what the command
//! says on the standard output, and ends with its status. With no folder it is `.`, and with no
//! command the answer is the usage line.
#![tactic(auto)]

use rk_bytes::{Memory, Text};
use rk_folder::{FolderDisk, StdoutSink};
use rk_ldb::{Status, end_after_want_of_memory, run};
use std::alloc::Global;
use std::env;
use std::io::ErrorKind;
use std::process::ExitCode;
use std::rt::{Env, Files};

fn main(rt: HostRuntime) -> ExitCode {
    let status = match run_arguments(&rt, rt.alloc()) {
        Ok(status) => status,
        Err(Memory) => end_after_want_of_memory(&mut StdoutSink::new(&rt)),
    };
    ExitCode::from(status.exit_status())
}

/// Runs the command of the program's arguments. After an `Err` nothing was written.
fn run_arguments<R>(rt: &R, alloc: Global) -> Result<Status, Memory>
where
    R: AllocGlobal + Env + Files + Print,
{
    match arguments(rt)?.split_first() {
        Some((folder, words)) => run_over(rt, alloc, folder.as_str(), words),
        None => run_over(rt, alloc, ".", &[]),
    }
}

/// Runs the command that the words spell over the folder. After an `Err` nothing was written.
fn run_over<R: Files + Print>(
    rt: &R,
    alloc: Global,
    folder: &str,
    words: &[Text],
) -> Result<Status, Memory> {
    let mut disk = FolderDisk::new(rt, alloc, folder)?;
    let mut out = StdoutSink::new(rt);
    Ok(run(alloc, words, &mut disk, &mut out))
}

/// The arguments behind the program's name. Where one isn't text there are none, as no command has
/// such a word.
fn arguments<R: AllocGlobal + Env>(rt: &R) -> Result<Vec<Text>, Memory> {
    let mut texts = Vec::new(rt.alloc());
    match env::args(rt) {
        Ok(arguments) => {
            for argument in arguments.skip(1) {
                texts.push(Text::copy_of(rt.alloc(), argument.as_str())?)?;
            }
        }
        Err(error) if error.kind() == ErrorKind::OutOfMemory => return Err(Memory),
        Err(_) => {}
    }
    Ok(texts)
}

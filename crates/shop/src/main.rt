//! Runs commands over the example database that RocksDB wrote, as it is and with its last log cut off, and writes
//! for each its words and what it says. What it has to write is made of what RocksDB's own tools say
//! (`examples/shop/expected`).
#![tactic(auto)]

use rk_bytes::{Memory, Text};
use rk_disk::{Disk, DiskErr, MemDisk, Sink, SinkErr, read_file};
use rk_folder::{FolderDisk, StdoutSink};
use rk_ldb::run;
use std::alloc::Global;
use std::process::ExitCode;
use std::rt::Files;

/// The commands over the database as it is.
const WHOLE: [&str; 17] = [
    "scan --family=default --mode=0 --from= --hex",
    "scan --family=default --mode=1 --from= --hex",
    "scan --family=default --mode=2 --from= --hex",
    "scan --family=default --mode=3 --from= --hex",
    "scan --family=orders --mode=0 --from=order/ --hex",
    "scan --family=orders --mode=1 --from=order/ --hex",
    "scan --family=orders --mode=2 --from=order/ --hex",
    "scan --family=orders --mode=3 --from=order/ --hex",
    "sst 12 check",
    "sst 12 scan --hex",
    "sst 15 check",
    "sst 15 scan --hex",
    "sst 17 check",
    "sst 17 scan --hex",
    "sst 19 check",
    "sst 19 scan --hex",
    "manifest_dump --hex",
];

/// The commands over the database with its last log cut off.
const CUT: [&str; 2] = [
    "scan --family=default --from= --hex",
    "scan --family=orders --from=order/ --hex",
];

/// The files that these read.
const FILES: [&str; 8] = [
    "000012.sst",
    "000015.sst",
    "000016.log",
    "000017.sst",
    "000018.log",
    "000019.sst",
    "CURRENT",
    "MANIFEST-000005",
];

/// The last log, and how long it is where it is cut off.
const LAST_LOG: &str = "000018.log";

const CUT_LENGTHS: [usize; 3] = [1000, 33000, 35601];

/// Why the commands aren't all run.
enum Stop {
    Disk,
    Output,
    Memory,
}

impl From<Memory> for Stop {
    fn from(_: Memory) -> Stop {
        Stop::Memory
    }
}

impl From<DiskErr> for Stop {
    fn from(_: DiskErr) -> Stop {
        Stop::Disk
    }
}

impl From<SinkErr> for Stop {
    fn from(_: SinkErr) -> Stop {
        Stop::Output
    }
}

fn main(rt: HostRuntime) -> ExitCode {
    let alloc = rt.alloc();
    match run_all(&rt, alloc) {
        Ok(()) => ExitCode::from(0),
        Err(Stop::Disk) => ExitCode::from(3),
        Err(Stop::Output) => ExitCode::from(4),
        Err(Stop::Memory) => ExitCode::from(5),
    }
}

/// Runs all commands over the files of the folder.
fn run_all<R: Files + Print>(rt: &R, alloc: Global) -> Result<(), Stop> {
    let mut disk = FolderDisk::new(rt, alloc, ".")?;
    let mut out = StdoutSink::new(rt);
    for line in WHOLE {
        run_line(alloc, line, &mut disk, &mut out)?;
    }
    for length in CUT_LENGTHS {
        let mut copy = copy_of(alloc, &mut disk, length)?;
        say_cut(alloc, length, &mut out)?;
        for line in CUT {
            run_line(alloc, line, &mut copy, &mut out)?;
        }
    }
    out.flush()?;
    Ok(())
}

/// Writes the words of a command, and what it says.
fn run_line<D: Disk, S: Sink>(
    alloc: Global,
    line: &str,
    disk: &mut D,
    out: &mut S,
) -> Result<(), Stop> {
    out.write(b"$ ")?;
    out.write(line.as_bytes())?;
    out.write(b"\n")?;
    let words = words_of(alloc, line)?;
    run(alloc, words.as_slice(), disk, out);
    Ok(())
}

/// The words of a line, of which each ends at a space.
fn words_of(alloc: Global, line: &str) -> Result<Vec<Text>, Memory> {
    let mut words = Vec::new(alloc);
    for word in line.split(' ') {
        words.push(Text::copy_of(alloc, word)?)?;
    }
    Ok(words)
}

/// Writes to what length the last log is cut.
fn say_cut<S: Sink>(alloc: Global, length: usize, out: &mut S) -> Result<(), Stop> {
    let said = cut_line(alloc, length)?;
    out.write(said.as_bytes())?;
    Ok(())
}

/// The line that says it.
fn cut_line(alloc: Global, length: usize) -> Result<String, Memory> {
    Ok(format!(in alloc; "{LAST_LOG} cut to {length} bytes\n")?)
}

/// The files in memory, the last log cut to this length.
fn copy_of<D: Disk>(alloc: Global, disk: &mut D, length: usize) -> Result<MemDisk, Stop> {
    let mut copy = MemDisk::new(alloc)?;
    for name in FILES {
        let Some(bytes) = read_file(alloc, disk, name)? else {
            return Err(Stop::Disk);
        };
        let bytes = bytes.as_slice();
        let kept = if name == LAST_LOG {
            length
        } else {
            bytes.len()
        };
        copy.put_file(name, &bytes[..kept.min(bytes.len())])?;
    }
    Ok(copy)
}

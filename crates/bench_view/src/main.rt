//! `bench_view FOLDER LOOKUPS` opens the database in the folder, walks over all that is shown of its default family,
//! and looks so many keys up that lie spread over the walk. It writes how many rows there were and how many keys were
//! found. `bench/view` times it.
#![tactic(auto)]

use rk_bytes::{Bytes, Memory, Text};
use rk_folder::FolderDisk;
use rk_open::{Mode, OpenErr, open_db};
use rk_view::{Answer, Row, State, view_get, view_iter};
use std::alloc::Global;
use std::process::ExitCode;
use std::rt::{Env, Files};
use std::{env, io};

/// The family that is walked over.
const FAMILY: u32 = 0;

/// Why nothing is told.
enum Stop {
    Usage,
    NotOpened,
    Output,
    Memory,
}

impl From<Memory> for Stop {
    fn from(_: Memory) -> Stop {
        Stop::Memory
    }
}

impl From<io::Error> for Stop {
    fn from(_: io::Error) -> Stop {
        Stop::Output
    }
}

fn main(rt: HostRuntime) -> ExitCode {
    match run(&rt, rt.alloc()) {
        Ok(()) => ExitCode::from(0),
        Err(Stop::NotOpened) => ExitCode::from(1),
        Err(Stop::Usage) => ExitCode::from(2),
        Err(Stop::Output) => ExitCode::from(4),
        Err(Stop::Memory) => ExitCode::from(5),
    }
}

/// Opens, walks and looks up as the arguments say.
fn run<R: AllocGlobal + Env + Files + Print>(rt: &R, alloc: Global) -> Result<(), Stop> {
    let (folder, lookups) = arguments(rt)?;
    let mut disk = FolderDisk::new(rt, alloc, folder.as_str())?;
    let state = match open_db(alloc, &mut disk, Mode::PointInTime) {
        Ok(state) => state,
        Err(OpenErr::Memory) => return Err(Stop::Memory),
        Err(_) => return Err(Stop::NotOpened),
    };
    let rows = count_rows(alloc, &state)?;
    let keys = spread_keys(alloc, &state, rows, lookups)?;
    let found = count_found(alloc, &state, keys.as_slice())?;
    println!(rt; "rows {rows} found {found}")?;
    Ok(())
}

/// The folder, and how many keys are looked up.
fn arguments<R: AllocGlobal + Env>(rt: &R) -> Result<(Text, u64), Stop> {
    let Ok(arguments) = env::args(rt) else {
        return Err(Stop::Usage);
    };
    let mut words = arguments.skip(1);
    let (Some(folder), Some(lookups)) = (words.next(), words.next()) else {
        return Err(Stop::Usage);
    };
    let Ok(lookups) = lookups.as_str().parse::<u64>() else {
        return Err(Stop::Usage);
    };
    Ok((Text::copy_of(rt.alloc(), folder.as_str())?, lookups))
}

/// How many rows a walk gives.
fn count_rows(alloc: Global, state: &State) -> Result<u64, Memory> {
    let mut rows = view_iter(alloc, state, FAMILY, None, None);
    let mut count = 0u64;
    while let Some(row) = rows.next_row()? {
        count = counted(&row, count);
    }
    Ok(count)
}

/// One more, where something is shown.
fn counted(row: &Row<'_>, count: u64) -> u64 {
    match row.answer {
        Answer::Absent => count,
        _ => count.saturating_add(1),
    }
}

/// About so many keys of the rows, of which there are `rows`, with as many others between two of them.
fn spread_keys(
    alloc: Global,
    state: &State,
    rows: u64,
    lookups: u64,
) -> Result<Vec<Bytes>, Memory> {
    let mut keys = Vec::new(alloc);
    let Some(step) = rows.checked_div(lookups) else {
        return Ok(keys);
    };
    let step = step.max(1);
    let mut walk = view_iter(alloc, state, FAMILY, None, None);
    let mut left = 0u64;
    while let Some(row) = walk.next_row()? {
        left = pick(alloc, &row, left, step, &mut keys)?;
    }
    Ok(keys)
}

/// Keeps the key of a row where no row is left before the next pick, and says how many are left then.
fn pick(
    alloc: Global,
    row: &Row<'_>,
    left: u64,
    step: u64,
    keys: &mut Vec<Bytes>,
) -> Result<u64, Memory> {
    if left > 0 {
        return Ok(left - 1);
    }
    keys.push(Bytes::copy_of(alloc, row.key)?)?;
    Ok(step.saturating_sub(1))
}

/// How many of the keys have something that is shown of them.
fn count_found(alloc: Global, state: &State, keys: &[Bytes]) -> Result<u64, Memory> {
    let mut found = 0u64;
    for key in keys {
        match view_get(alloc, state, FAMILY, key.as_slice())? {
            Answer::Absent => {}
            _ => found = found.saturating_add(1),
        }
    }
    Ok(found)
}

//! The command `drill`, up to what it opens. What it repairs comes with `repair`.
ghost use Rattle.std.specs.Prelude.{◌≡◌, ◌≢◌, ◌≤◌, IfOk, OnOk, map};
ghost use Rattle.rk_bytes.specs.Model.Drill.{drill_directory};
ghost use Rattle.rk_bytes.specs.Model.Output.{opened_counts, state_of, state_counts};
ghost use Rattle.rk_text.specs.Outcomes.{outcome_words};
ghost use Rattle.rk_ldb.specs.Answers.{IsCommandAnswer};
ghost use Rattle.rk_ldb.specs.Drills.{drill_so_far, drill_lines, opening_line, opened_line};
ghost use Rattle.rk_ldb.specs.Stops.{TookUpTo, TookLine, OutputStops};

use crate::counts::key_count;
use crate::lines::write_line;
use crate::opening::open_state;
use crate::stop::Stop;
use rk_bytes::Memory;
use rk_bytes::model::{How, Mode, Status};
use rk_disk::{CalmDisk, Sink};
use rk_gen::make_directory;
use rk_open::OpenErr;
use rk_text::{Line, Outcome};
use rk_view::State;
use std::alloc::Global;

/// The ways of opening, in the order of their lines.
const WAYS: &[How] = &[
    How::Normal(Mode::TolerateTail),
    How::Normal(Mode::Absolute),
    How::Normal(Mode::PointInTime),
    How::Normal(Mode::SkipAny),
    How::Best,
];

/// Makes the directory of this number in memory, and writes what it is opened to in each way. No other disk is
/// looked at.
pub(crate) fn drill<S: Sink>(alloc: Global, number: u64, out: &mut S) -> Result<Status, Stop>
    requires { number ≤ 100000 }
    ensures lines { TookUpTo (S.taken out.old) (S.taken out.new) (drill_so_far number (drill_directory number)).lines result }
    ensures status { IfOk result (λ status. status ≡ Status.Done) }
    ensures answers { IfOk result IsCommandAnswer }
    ensures counts { OutputStops (S.faults out.old) (S.faults out.new) result }
{
    let mut disk = make_directory(alloc, number)?;
    write_drill(alloc, number, &mut disk, out)
}

/// Writes the lines of the drill of this number over a directory.
fn write_drill<S: Sink>(
    alloc: Global,
    number: u64,
    disk: &mut CalmDisk,
    out: &mut S,
) -> Result<Status, Stop>
    ensures lines { TookUpTo (S.taken out.old) (S.taken out.new) (drill_lines number disk.old) result }
    ensures status { IfOk result (λ status. status ≡ Status.Done) }
    ensures counts { OutputStops (S.faults out.old) (S.faults out.new) result }
{
    let mut line = Line::new(alloc);
    line.set_drill(number)?;
    write_line(line.as_slice(), out)?;
    write_openings(alloc, WAYS, disk, &mut line, out)
}

/// Writes a line for each of these ways of opening. One state is let go before the next is opened.
fn write_openings<S: Sink>(
    alloc: Global,
    ways: &[How],
    disk: &mut CalmDisk,
    line: &mut Line,
    out: &mut S,
) -> Result<Status, Stop>
    ensures lines { TookUpTo (S.taken out.old) (S.taken out.new) (map (opened_line disk.old) ways.now) result }
    ensures status { IfOk result (λ status. status ≡ Status.Done) }
    ensures counts { OutputStops (S.faults out.old) (S.faults out.new) result }
{
    for how in ways {
        write_opening(alloc, *how, disk, line, out)?;
    }
    Ok(Status::Done)
}

/// Writes what the directory is opened to in this way.
fn write_opening<S: Sink>(
    alloc: Global,
    how: How,
    disk: &mut CalmDisk,
    line: &mut Line,
    out: &mut S,
) -> Result<(), Stop>
    ensures line { TookLine (S.taken out.old) (S.taken out.new) (opened_line disk.old how) result }
    ensures counts { OutputStops (S.faults out.old) (S.faults out.new) result }
    ensures same { disk.new ≡ disk.old }
{
    let outcome = outcome_of(alloc, how, disk)?;
    set_opening(line, how, outcome)?;
    write_line(line.as_slice(), out)
}

/// Makes this the line of a way of opening.
fn set_opening(line: &mut Line, how: How, outcome: Outcome) -> Result<(), Memory>
    ensures { OnOk result (line.new ≡ opening_line how (outcome_words outcome)) }
{
    match how {
        How::Normal(mode) => line.set_mode(mode, outcome),
        How::Best => line.set_best_efforts(outcome),
    }
}

/// What the opening of the directory in this way comes to.
fn outcome_of(alloc: Global, how: How, disk: &mut CalmDisk) -> Result<Outcome, Memory>
    ensures outcome { IfOk result (λ outcome. outcome_words outcome ≡ opened_counts (state_of how disk.old)) }
    ensures same { disk.new ≡ disk.old }
{
    match open_state(alloc, disk, how) {
        Ok(state) => counted(alloc, &state),
        Err(why) => refused(why),
    }
}

/// The counts of a state.
fn counted(alloc: Global, state: &State) -> Result<Outcome, Memory>
    ensures { IfOk result (λ outcome. outcome_words outcome ≡ state_counts state.now.state) }
{
    let keys = key_count(alloc, state)?;
    Ok(Outcome::Counts {
        records: state.count(),
        keys,
    })
}

/// The refusal of a directory, unless memory ran out. The drill's disk never fails.
fn refused(why: OpenErr) -> Result<Outcome, Memory>
    requires { why ≢ OpenErr.DiskFault }
    ensures outcome { IfOk result (λ outcome. outcome ≡ Outcome.Refused why) }
    ensures memory { IfOk result (λ _. why ≢ OpenErr.Memory) }
{
    match why {
        OpenErr::Memory => Err(Memory),
        _ => Ok(Outcome::Refused(why)),
    }
}

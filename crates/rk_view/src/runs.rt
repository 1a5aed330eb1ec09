//! Runs of records, the youngest last, whose records take the places of those in older runs.
ghost use Rattle.std.specs.Prelude.{◌≡◌, ◌+◌, ◌<◌, ◌≤◌, ◌++◌, ◌∷◌, [], true, false, is_some, None, length, OnErr, IfErr, IfOk, min, vec_len, vec_capacity, if◌then◌else◌, IsTrue, OnOk};
ghost use Rattle.std.specs.List.{All};
ghost use Rattle.std.specs.FinMap.{contains_key, len};
ghost use Rattle.rk_bytes.specs.Model.Records.{slot_of, last_records, over};
ghost use Rattle.rk_view.specs.Maps.{AreApart, IsRun, look, map_of};
ghost use Rattle.rk_view.specs.Kept.{AreCounted, most};
ghost use Rattle.rk_view.specs.Parts.{IsRoom};

use crate::merge::merge;
use crate::parts::Hint;
use crate::run::{MOST_RUNS, Room, Run};
use rk_bytes::Memory;
use rk_ikey::Record;
use std::alloc::Global;

/// How many records there are with those of one more run, from how many there are without, and whether some
/// slot of that run is held.
pub fn counted(runs: &[Run], records: &[Record], count: u64) -> (u64, bool)
    requires few { length runs.now ≤ MOST_RUNS }
    requires runs { AreCounted runs.now count }
    requires run { IsRun records.now }
    ensures count { result.0 ≡ min (len (over (map_of runs.now) (last_records records.now))) most }
    ensures held { result.1 ≡ false → All (λ r. contains_key (map_of runs.now) (slot_of r) ≡ false) records.now }
{
    let apart = apart_from(runs, records);
    let mut hints = [Hint { part: 0, record: 0 }; MOST_RUNS];
    let mut total = count;
    let mut some = false;
    for sought in records {
        let held = holds(runs, &apart, sought, &mut hints);
        total = more_unless(held, total);
        some = some || held;
    }
    (total, some)
}

/// For each run, whether it has a gap for all of the records, and so holds none of their slots.
fn apart_from(runs: &[Run], records: &[Record]) -> [bool; MOST_RUNS]
    requires few { length runs.now ≤ MOST_RUNS }
    requires records { IsRun records.now }
    ensures { All (AreApart result runs.now) records.now }
{
    let mut apart = [false; MOST_RUNS];
    for index in 0..runs.len() {
        apart[index] = runs[index].has_gap(records);
    }
    apart
}

/// Whether some run has a record in the slot of the one that is sought. Of each run it is known whether it is
/// apart from that, and there is a hint for the others.
fn holds(runs: &[Run], apart: &[bool], sought: &Record, hints: &mut [Hint]) -> bool
    requires hints { length runs.now ≤ length hints.old }
    requires flags { length runs.now ≤ length apart.now }
    requires apart { AreApart apart.now runs.now sought.now }
    requires runs { All (λ run. IsRun run) runs.now }
    ensures { result ≡ contains_key (map_of runs.now) (slot_of sought.now) }
{
    let mut held = false;
    for (index, run) in runs.iter().enumerate() {
        held = held || holds_unless(run, apart[index], sought, &mut hints[index]);
    }
    held
}

/// Whether a run that isn't apart from the slot of the one that is sought has a record there.
fn holds_unless(run: &Run, apart: bool, sought: &Record, hint: &mut Hint) -> bool
    requires { apart ≡ true → look (slot_of sought.now) run.now ≡ None }
    ensures { result ≡ is_some (look (slot_of sought.now) run.now) }
{
    if apart {
        return false;
    }
    run.holds(sought, hint)
}

/// One more, unless a record was held before, and at most 2^64 - 1.
fn more_unless(held: bool, count: u64) -> u64
    ensures { result ≡ (if held then count else min (count + 1) most) }
{
    if held { count } else { count.saturating_add(1) }
}

/// Makes room for so many more runs. Comes to nothing where memory runs out, or where there can't be so many;
/// the runs hold what they held.
pub fn reserve(
    alloc: Global,
    runs: &mut Vec<Run>,
    rooms: &mut Vec<Room>,
    n: usize,
) -> Result<(), Memory>
    requires runs { All (λ run. IsRun run) runs.old.items }
    requires rooms { All (λ room. IsRoom room) rooms.old.items }
    ensures runs { All (λ run. IsRun run) runs.new.items }
    ensures same { map_of runs.new.items ≡ map_of runs.old.items }
    ensures rooms { All (λ room. IsRoom room) rooms.new.items }
    ensures few { OnOk result (vec_len runs.new + n ≤ MOST_RUNS) }
    ensures space { OnOk result (vec_len runs.new + n ≤ vec_capacity runs.new) }
    ensures ready { OnOk result (n ≤ vec_len rooms.new) }
    ensures len { vec_len runs.new ≤ vec_len runs.old }
    ensures capacity { vec_capacity runs.old ≤ vec_capacity runs.new }
    ensures more { vec_len rooms.old ≤ vec_len rooms.new }
{
    if n >= MOST_RUNS {
        return Err(Memory);
    }
    shrink(alloc, runs, MOST_RUNS - n)?;
    runs.reserve(n)?;
    make_rooms(alloc, rooms, n)
}

/// Makes rooms until there are so many.
fn make_rooms(alloc: Global, rooms: &mut Vec<Room>, n: usize) -> Result<(), Memory>
    requires { All (λ room. IsRoom room) rooms.old.items }
    ensures rooms { All (λ room. IsRoom room) rooms.new.items }
    ensures ready { OnOk result (n ≤ vec_len rooms.new) }
    ensures more { vec_len rooms.old ≤ vec_len rooms.new }
{
    while rooms.len() < n {
        let room = Vec::with_capacity(alloc, 1)?;
        rooms.push(room)?;
    }
    Ok(())
}

/// Makes one run of several until there are at most so many.
fn shrink(alloc: Global, runs: &mut Vec<Run>, count: usize) -> Result<(), Memory>
    requires runs { All (λ run. IsRun run) runs.old.items }
    requires some { 0 < count }
    ensures runs { All (λ run. IsRun run) runs.new.items }
    ensures same { map_of runs.new.items ≡ map_of runs.old.items }
    ensures few { OnOk result (vec_len runs.new ≤ count) }
    ensures len { vec_len runs.new ≤ vec_len runs.old }
    ensures capacity { vec_capacity runs.new ≡ vec_capacity runs.old }
{
    if runs.len() <= count {
        return Ok(());
    }
    settle(alloc, runs);
    while runs.len() > count {
        join_youngest(alloc, runs)?;
    }
    Ok(())
}

/// Adds a list of records, of which each takes the place of one in its slot. Where none of the slots is held,
/// a run that has a gap for all of them takes them in.
pub fn add(runs: &mut Vec<Run>, rooms: &mut Vec<Room>, records: Vec<Record>, held: bool)
    requires runs { All (λ run. IsRun run) runs.old.items }
    requires rooms { All (λ room. IsRoom room) rooms.old.items }
    requires space { vec_len runs.old < vec_capacity runs.old }
    requires ready { 0 < vec_len rooms.old }
    requires records { IsRun records.items }
    requires held { held ≡ false → All (λ r. contains_key (map_of runs.old.items) (slot_of r) ≡ false) records.items }
    ensures runs { All (λ run. IsRun run) runs.new.items }
    ensures map { map_of runs.new.items ≡ over (map_of runs.old.items) (last_records records.items) }
    ensures rooms { All (λ room. IsRoom room) rooms.new.items }
    ensures len { vec_len runs.new ≤ vec_len runs.old + 1 }
    ensures capacity { vec_capacity runs.new ≡ vec_capacity runs.old }
    ensures fewer { vec_len rooms.old ≤ vec_len rooms.new + 1 }
{
    if held {
        begin(runs, rooms, records);
        return;
    }
    match attach(runs.as_mut_slice(), records) {
        Ok(()) => (),
        Err(left) => begin(runs, rooms, left),
    }
}

/// Begins a new run, the youngest.
pub fn begin(runs: &mut Vec<Run>, rooms: &mut Vec<Room>, records: Vec<Record>)
    requires runs { All (λ run. IsRun run) runs.old.items }
    requires rooms { All (λ room. IsRoom room) rooms.old.items }
    requires space { vec_len runs.old < vec_capacity runs.old }
    requires ready { 0 < vec_len rooms.old }
    requires records { IsRun records.items }
    ensures runs { All (λ run. IsRun run) runs.new.items }
    ensures map { map_of runs.new.items ≡ over (map_of runs.old.items) (last_records records.items) }
    ensures rooms { All (λ room. IsRoom room) rooms.new.items }
    ensures len { vec_len runs.new ≡ vec_len runs.old + 1 }
    ensures capacity { vec_capacity runs.new ≡ vec_capacity runs.old }
    ensures fewer { vec_len rooms.new + 1 ≡ vec_len rooms.old }
{
    match rooms.pop() {
        Some(room) => runs.push_reserved(Run::of(room, records)),
        None => unreachable!(),
    }
}

/// Lets a run take in records of which no slot is held. Gives them back where none has a gap for them, and
/// where memory runs out.
fn attach(runs: &mut [Run], records: Vec<Record>) -> Result<(), Vec<Record>>
    requires runs { All (λ run. IsRun run) runs.old }
    requires records { IsRun records.items }
    requires free { All (λ r. contains_key (map_of runs.old) (slot_of r) ≡ false) records.items }
    ensures runs { All (λ run. IsRun run) runs.new }
    ensures map { OnOk result (map_of runs.new ≡ over (map_of runs.old) (last_records records.items)) }
    ensures err { OnErr result (runs.new ≡ runs.old) }
    ensures back { IfErr result (λ back. back.items ≡ records.items) }
{
    let mut left = records;
    for index in 0..runs.len() {
        let run = &mut runs[index];
        match run.take_in(left) {
            Ok(()) => return Ok(()),
            Err(back) => left = back,
        }
    }
    Err(left)
}

/// Makes one run of the two youngest ones for as long as the older of them isn't twice as long, so that there
/// are few runs. Where memory runs out, it leaves the rest as they are.
pub fn settle(alloc: Global, runs: &mut Vec<Run>)
    requires { All (λ run. IsRun run) runs.old.items }
    ensures runs { All (λ run. IsRun run) runs.new.items }
    ensures same { map_of runs.new.items ≡ map_of runs.old.items }
    ensures len { vec_len runs.new ≤ vec_len runs.old }
    ensures capacity { vec_capacity runs.new ≡ vec_capacity runs.old }
{
    while is_due(runs.as_slice()) {
        if join_youngest(alloc, runs).is_err() {
            return;
        }
    }
}

/// Whether there are two runs, and the older one of the youngest two isn't twice as long as the other.
fn is_due(runs: &[Run]) -> bool
    ensures { IsTrue result → 2 ≤ length runs.now }
{
    let count = runs.len();
    count >= 2 && is_short(&runs[count - 2], &runs[count - 1])
}

/// Whether the older run isn't twice as long as the younger one.
fn is_short(older: &Run, younger: &Run) -> bool {
    match (older.len(), younger.len()) {
        (Some(older), Some(younger)) => older / 2 < younger,
        _ => false,
    }
}

/// Makes one run of the two youngest ones. Where memory runs out, it changes nothing.
fn join_youngest(alloc: Global, runs: &mut Vec<Run>) -> Result<(), Memory>
    requires runs { All (λ run. IsRun run) runs.old.items }
    requires two { 2 ≤ vec_len runs.old }
    ensures runs { All (λ run. IsRun run) runs.new.items }
    ensures same { map_of runs.new.items ≡ map_of runs.old.items }
    ensures ok { OnOk result (vec_len runs.new < vec_len runs.old) }
    ensures err { OnErr result (vec_len runs.new ≡ vec_len runs.old) }
    ensures capacity { vec_capacity runs.new ≡ vec_capacity runs.old }
{
    let (older, younger) = pop_two(runs);
    match space_for(alloc, &older, &younger) {
        Ok((room, mut merged)) => {
            merge(alloc, older, younger, &mut merged);
            runs.push_reserved(Run::of(room, merged));
            Ok(())
        }
        Err(memory) => {
            runs.push_reserved(older);
            runs.push_reserved(younger);
            Err(memory)
        }
    }
}

/// Takes the two youngest runs away.
fn pop_two(runs: &mut Vec<Run>) -> (Run, Run)
    requires { 2 ≤ vec_len runs.old }
    ensures items { runs.old.items ≡ (runs.new.items ++ result.0 ∷ []) ++ result.1 ∷ [] }
    ensures len { vec_len runs.new + 2 ≡ vec_len runs.old }
    ensures capacity { vec_capacity runs.new ≡ vec_capacity runs.old }
{
    match runs.pop() {
        Some(younger) => match runs.pop() {
            Some(older) => (older, younger),
            None => unreachable!(),
        },
        None => unreachable!(),
    }
}

/// Memory for a run of all records of two runs.
fn space_for(alloc: Global, older: &Run, younger: &Run) -> Result<(Room, Vec<Record>), Memory>
    ensures { IfOk result (λ space. IsRoom space.0 × (space.1.items ≡ []) × (length older.now + length younger.now ≤ vec_capacity space.1)) }
{
    let (Some(first), Some(second)) = (older.len(), younger.len()) else {
        return Err(Memory);
    };
    let Some(len) = first.checked_add(second) else {
        return Err(Memory);
    };
    Ok((
        Vec::with_capacity(alloc, 1)?,
        Vec::with_capacity(alloc, len)?,
    ))
}

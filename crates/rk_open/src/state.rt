//! The state that a directory is opened to: the families of its version, and then the records of its logs.
ghost use Rattle.std.specs.Prelude.{◌≡◌, ◌<◌, ◌≤◌, ◌∷◌, ◌++◌, [], List, fold, map, max, IfOk, OnOk};
ghost use Rattle.std.specs.List.{All, AllByRecursion};
ghost use Rattle.rk_bytes.specs.declared.model.key.Record.{Record as Stored};
ghost use Rattle.rk_bytes.specs.declared.model.view.FamilyLine.{FamilyLine};
ghost use Rattle.rk_bytes.specs.Model.InternalKey.{top_sequence};
ghost use Rattle.rk_bytes.specs.Model.Opening.{TableFile, family_line, greatest_sequence, state_with};
ghost use Rattle.rk_version.specs.Places.{Rises};
ghost use Rattle.rk_open.specs.Logged.{with_logged};
ghost use Rattle.rk_open.specs.Opened.{IsTopOf};
ghost use Rattle.rk_open.specs.Versions.{IsLast};

use rk_bytes::{Memory, Seq};
use rk_ikey::Record;
use rk_version::{FamilyState, Version};
use rk_view::{State, StateErr};
use std::alloc::Global;

/// The families of a version, with no records and no range deletions yet.
pub(crate) fn state_of_families(alloc: Global, version: &Version) -> Result<State, Memory>
    requires last { IsLast version.now }
    ensures state { IfOk result (λ state. state.state ≡ state_with (map family_line version.now.families) [] []) }
{
    let mut state = State::new(alloc);
    add_families(&mut state, version.families.as_slice())?;
    Ok(state)
}

/// Adds families in rising id to a state that has none.
pub(crate) fn add_families(state: &mut State, families: &[FamilyState]) -> Result<(), Memory>
    requires none { state.old.state ≡ state_with [] [] [] }
    requires rising { Rises (λ live. live.id) families.now }
    ensures state { OnOk result (state.new.state ≡ state_with (map family_line families.now) [] []) }
{
    for live in families {
        add_family(state, live)?;
    }
    Ok(())
}

/// Adds a family whose id is above those of the others.
fn add_family(state: &mut State, live: &FamilyState) -> Result<(), Memory>
    requires above { AllByRecursion (λ line. line.id < live.now.id) state.old.state.families }
    ensures state { OnOk result (state.new.state ≡ record state.old.state { families = state.old.state.families ++ family_line live.now ∷ [] }) }
{
    let files = live.files.as_slice().len() as u64;
    match state.add_family(live.id, live.name.as_slice(), live.log, files) {
        Ok(()) => Ok(()),
        Err(StateErr::Present) => unreachable!(),
        Err(StateErr::Memory) => Err(Memory),
    }
}

/// Adds the records of logs, in their order. Gives the greatest of their sequence numbers and of `top`, which is
/// that of the records before them. `Memory` comes only where memory runs out.
pub(crate) fn add_replayed(state: &mut State, records: Seq<Record>, top: u64) -> Result<u64, Memory>
    requires sequences { All (λ (r : Stored). r.sequence ≤ top_sequence) records }
    ensures state { OnOk result (state.new.state ≡ with_logged records state.old.state) }
    ensures told { (tables : List TableFile) (lines : List FamilyLine) → state.old.state ≡ state_with lines tables [] → OnOk result (state.new.state ≡ state_with lines tables records) }
    ensures top { (all : List Stored) → top ≡ greatest_sequence all → IfOk result (λ top. top ≡ greatest_sequence (all ++ records)) }
    ensures bound { IsTopOf top state.old.state → IfOk result (λ top. IsTopOf top state.new.state) }
{
    let greatest = greatest_with(top, records.as_slice());
    state.add_records(records)?;
    Ok(greatest)
}

/// The greatest of a number and of the records' sequence numbers.
fn greatest_with(top: u64, records: &[Record]) -> u64
    ensures { result ≡ fold max top (map (λ (r : Stored). r.sequence) records.now) }
{
    let mut top = top;
    for record in records {
        top = top.max(record.sequence);
    }
    top
}

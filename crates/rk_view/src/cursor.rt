//! Runs in memory as sources.
ghost use Rattle.std.specs.Prelude.{◌≡◌, ◌≤◌, ◌++◌, [], map, filter, length, slice_get, MatchOption};
ghost use Rattle.std.specs.Option.{option_copied};
ghost use Rattle.std.specs.FinMap.{values};
ghost use Rattle.rk_view.specs.Places.{is_after};
ghost use Rattle.rk_view.specs.Maps.{IsRun};
ghost use Rattle.rk_view.specs.Parts.{joined};
ghost use Rattle.rk_view.specs.Sources.{merged, AreRuns};
ghost use Rattle.rk_view.specs.Shown.{shown_below, IsNextShown};

use crate::next::next_shown;
use crate::parts::part_after;
use crate::place::Place;
use crate::run::{MOST_RUNS, Run};
use crate::source::{Source, least, skip};
use crate::state::State;
use rk_ikey::Record;
use rk_tomb::TombSet;
use std::convert::Infallible;
use std::marker::Model;

/// What is left of a run in memory.
#[derive(Clone, Copy, Debug)]
pub struct RunCursor<'a> {
    /// What is left of a part of the run.
    records: &'a [Record],
    /// The parts behind it.
    behind: &'a [Vec<Record>],
}

impl<'a> Source for RunCursor<'a> {
    type Error = Infallible;

    ghost left = { λ c. c.records.now ++ joined c.behind.now };

    fn head(&self) -> Option<&Record> {
        self.first()
    }

    fn advance(&mut self) -> Result<(), Infallible> {
        self.enter();
        if let Some((_, rest)) = self.records.split_first() {
            self.records = rest;
        }
        Ok(())
    }
}

impl<'a> RunCursor<'a> {
    /// What of a run comes after a place.
    fn at(run: &'a Run, place: &Place<'_>) -> RunCursor<'a>
        ensures { result.records.now ++ joined result.behind.now ≡ filter (is_after place.now.family place.now.user.now place.now.below) run.now }
    {
        let parts = run.parts();
        let index = part_after(parts, place);
        match parts.get(index) {
            Some(part) => RunCursor {
                records: after(part.as_slice(), place),
                behind: &parts[index + 1..],
            },
            None => RunCursor {
                records: &[],
                behind: &[],
            },
        }
    }

    /// The first of the records that are left, if there is one.
    fn first(&self) -> Option<&'a Record>
        ensures { option_copied result ≡ slice_get (self.now.records.now ++ joined self.now.behind.now) 0 }
    {
        match self.records.first() {
            Some(first) => Some(first),
            None => first_in(self.behind),
        }
    }

    /// Goes on to a part in which records are left, if there is one.
    fn enter(&mut self)
        ensures same { self.new.records.now ++ joined self.new.behind.now ≡ self.old.records.now ++ joined self.old.behind.now }
        ensures entered { self.new.records.now ≡ [] → joined self.new.behind.now ≡ [] }
    {
        while self.records.is_empty() {
            match self.behind.split_first() {
                Some((part, rest)) => {
                    self.records = part.as_slice();
                    self.behind = rest;
                }
                None => return,
            }
        }
    }
}

/// What of sorted records comes after a place.
fn after<'r>(run: &'r [Record], place: &Place<'_>) -> &'r [Record]
    requires { IsRun run.now }
    ensures { result.now ≡ filter (is_after place.now.family place.now.user.now place.now.below) run.now }
{
    let first = run.partition_point(|record| !place.is_before(record));
    &run[first..]
}

/// The first record of parts, if they have any.
fn first_in<'r>(parts: &'r [Vec<Record>]) -> Option<&'r Record>
    ensures { option_copied result ≡ slice_get (joined parts.now) 0 }
{
    for part in parts {
        if let Some(first) = part.as_slice().first() {
            return Some(first);
        }
    }
    None
}

/// What is left of runs, the youngest last. Contracts see them as lists.
#[derive(Debug, Drop)]
pub struct Cursors<'a> {
    runs: [RunCursor<'a>; MOST_RUNS],
    count: usize,
}

impl<'a> Model for Cursors<'a> {
    ghost use Rattle.std.specs.Prelude.{◌≤◌, ◌++◌, List, map, take};
    ghost use Rattle.rk_bytes.specs.declared.model.key.Record.{Record};
    ghost use Rattle.rk_view.specs.Parts.{joined};
    ghost use Rattle.rk_view.specs.Sources.{AreRuns};

    ghost Value = { List (List Record) };

    ghost view = { λ c. map (λ run. run.records.now ++ joined run.behind.now) (take c.count c.runs) };

    ghost invariant = { λ c. (c.count ≤ 32) × AreRuns (map (λ run. run.records.now ++ joined run.behind.now) (take c.count c.runs)) };
}

impl<'a> Cursors<'a> {
    /// What of a state's runs comes after a place.
    pub fn of(state: &'a State, place: &Place<'_>) -> Cursors<'a>
        ensures left { merged result ≡ filter (is_after place.now.family place.now.user.now place.now.below) (values state.now.state.records) }
        ensures values { IsRun (values state.now.state.records) }
    {
        Cursors::at(state.runs(), place)
    }

    /// What of runs comes after a place.
    fn at(runs: &'a [Run], place: &Place<'_>) -> Cursors<'a>
        requires runs { AreRuns runs.now }
        requires few { length runs.now ≤ MOST_RUNS }
        ensures { result ≡ map (filter (is_after place.now.family place.now.user.now place.now.below)) runs.now }
    {
        let none = RunCursor {
            records: &[],
            behind: &[],
        };
        let mut cursors = [none; MOST_RUNS];
        let mut count = 0;
        for run in runs {
            cursors[count] = RunCursor::at(run, place);
            count += 1;
        }
        Cursors {
            runs: cursors,
            count,
        }
    }

    /// The first of all records that are left, if there is one: of one slot the youngest run's.
    pub fn first(&self) -> Option<&'a Record>
        ensures first { option_copied result ≡ slice_get (merged self.now) 0 }
        ensures runs { AreRuns self.now }
    {
        let runs = &self.runs[..self.count];
        match least(runs) {
            Some(index) => runs[index].first(),
            None => None,
        }
    }

    /// Goes past the records that don't come after a place.
    pub fn skip(&mut self, place: &Place<'_>)
        ensures { self.new ≡ map (filter (is_after place.now.family place.now.user.now place.now.below)) self.old }
    {
        match skip(&mut self.runs[..self.count], place) {
            Ok(()) => (),
            Err(never) => match never {},
        }
    }

    /// Goes on to the next record of a key that no range deletion covers, of those with a number below a limit.
    pub fn next_shown(
        &mut self,
        tombs: &TombSet,
        family: u32,
        key: &[u8],
        below: u128,
    ) -> Option<&'a Record>
        ensures { MatchOption result (shown_below tombs.now family key.now below (merged self.old) ≡ []) (λ next. IsNextShown tombs.now family key.now below (merged self.old) (merged self.new) next.now) }
    {
        match next_shown(&mut self.runs[..self.count], tombs, family, key, below) {
            Ok(Some(index)) => {
                let runs = &self.runs[..self.count];
                runs[index].first()
            }
            Ok(None) => None,
            Err(never) => match never {},
        }
    }

    /// The same records again.
    pub fn copy(&self) -> Cursors<'a>
        ensures { result ≡ self.now }
    {
        Cursors {
            runs: self.runs,
            count: self.count,
        }
    }
}

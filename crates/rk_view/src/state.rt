ghost use Rattle.std.specs.Prelude.{◌≡◌, ◌↔◌, ◌≤◌, ◌-◌, ◌^◌, ◌++◌, flat_map, length, None, IsTrue, IsErrOf, OnOk, OnErr};
ghost use Rattle.std.specs.List.{All};
ghost use Rattle.std.specs.FinMap.{values};
ghost use Rattle.rk_bytes.specs.Model.KeyView.{family_named, record_count};
ghost use Rattle.rk_tomb.specs.Bounds.{HasWholeBounds};
ghost use Rattle.rk_view.specs.Kept.{empty_state, with_family, has_family, with_record, with_records, with_replayed, IsTableRun, AreRising, tombs_of};
ghost use Rattle.rk_view.specs.Maps.{IsRun, map_of};

use crate::run::{MOST_RUNS, Room, Run};
use crate::{family, runs, sort};
use rk_bytes::model::FamilyLine;
use rk_bytes::{Bytes, Memory, Seq};
use rk_ikey::{Kind, Record, TOP};
use rk_tomb::{Cut, Tomb, TombSet};
use std::alloc::Global;
use std::marker::Model;

/// What a directory is opened to: its live families, its records and its range deletions.
///
/// Records are kept in runs, each sorted by family, internal key and, for range deletions, end. A record of a
/// younger run takes the place of one in the same slot of an older run.
#[derive(Debug, Drop)]
pub struct State {
    alloc: Global,
    families: Vec<FamilyLine>,
    tombs: TombSet,
    /// The youngest run is the last.
    runs: Vec<Run>,
    /// Rooms for the lists of parts of more runs.
    rooms: Vec<Room>,
    /// For how many more runs there is room.
    spare: usize,
    /// How many slots have a record.
    count: u64,
}

impl Model for State {
    ghost use Rattle.rk_view.specs.Kept.{Kept, coded_kept};

    ghost Value = { Kept };

    ghost coded = { coded_kept };

    ghost use Rattle.std.specs.Prelude.{vec_len, vec_capacity};
    ghost use Rattle.rk_view.specs.Maps.{map_of};
    ghost use Rattle.rk_view.specs.Kept.{AreCounted, AreRising, IsStored};

    ghost view = { λ s. record { state = record { families = s.families.items; records = map_of s.runs.items; tombs = s.tombs }; spare = s.spare } };

    ghost invariant = { λ s. IsStored s.families.items s.runs.items (vec_len s.runs) (vec_capacity s.runs) s.rooms.items (vec_len s.rooms) s.spare s.count };
}

/// Why a family isn't added.
#[derive(Clone, Copy, Debug, PartialEq, Eq)]
pub enum StateErr {
    /// There is a family with this id.
    Present,
    /// Memory ran out.
    Memory,
}

impl State {
    /// No families, no records and no range deletions. Takes no memory yet.
    pub fn new(alloc: Global) -> State
        ensures state { result.state ≡ empty_state }
        ensures spare { result.spare ≡ 0 }
    {
        State {
            alloc,
            families: Vec::new(alloc),
            tombs: TombSet::new(alloc),
            runs: Vec::new(alloc),
            rooms: Vec::new(alloc),
            spare: 0,
            count: 0,
        }
    }

    /// Adds a live family. `Present` comes where there is one with this id, `Memory` only where memory runs out.
    pub fn add_family(&mut self, id: u32, name: &[u8], log: u64, files: u64) -> Result<(), StateErr>
        ensures ok { OnOk result (self.new ≡ record self.old { state = record self.old.state { families = with_family (record { id = id; name = name.now; log = log; files = files }) self.old.state.families } }) }
        ensures present { IsErrOf result StateErr.Present ↔ IsTrue (has_family id self.old.state.families) }
        ensures err { OnErr result (self.new ≡ self.old) }
    {
        if family::has(self.families.as_slice(), id) {
            return Err(StateErr::Present);
        }
        let Ok(name) = Bytes::copy_of(self.alloc, name) else {
            return Err(StateErr::Memory);
        };
        let line = FamilyLine {
            id,
            name,
            log,
            files,
        };
        match family::insert(&mut self.families, line) {
            Ok(()) => Ok(()),
            Err(Memory) => Err(StateErr::Memory),
        }
    }

    /// Adds a record, which takes the place of one in its slot. A range deletion acts within the bounds, if
    /// there are any, and on all keys of its range without. Where memory runs out, it changes nothing.
    pub fn add_record(&mut self, added: Record, cut: Option<Cut>) -> Result<(), Memory>
        requires sequence { added.sequence ≤ TOP }
        requires cut { HasWholeBounds cut }
        ensures state { OnOk result (self.new.state ≡ with_record cut added self.old.state) }
        ensures spare { OnOk result (self.new.spare ≡ 0) }
        ensures err { OnErr result (self.new ≡ self.old) }
    {
        let mut records = Vec::with_capacity(self.alloc, 1)?;
        runs::reserve(self.alloc, &mut self.runs, &mut self.rooms, 1)?;
        add_tomb(self.alloc, &mut self.tombs, &added, cut)?;
        records.push_reserved(added);
        self.spare = 1;
        self.begin(records);
        Ok(())
    }

    /// Adds records in their order, as logs hold them. Each takes the place of one in its slot, and range deletions
    /// act on all keys of their ranges. Where memory runs out, there are no more records than before, but there
    /// may be more range deletions.
    pub fn add_records(&mut self, records: Seq<Record>) -> Result<(), Memory>
        requires sequences { All (λ r. r.sequence ≤ TOP) records }
        ensures state { OnOk result (self.new.state ≡ with_replayed records self.old.state) }
        ensures spare { OnOk result (self.new.spare ≡ 0) }
        ensures families { OnErr result (self.new.state.families ≡ self.old.state.families) }
        ensures records { OnErr result (self.new.state.records ≡ self.old.state.records) }
    {
        runs::reserve(self.alloc, &mut self.runs, &mut self.rooms, 1)?;
        add_tombs(self.alloc, &mut self.tombs, records.as_slice())?;
        let records = sort::last_of_each(records.into_vec())?;
        self.spare = 1;
        self.begin(records);
        Ok(())
    }

    /// Makes room for so many runs at least. `Memory` comes where memory runs out, and where there can't be so
    /// many runs; it changes nothing then.
    pub fn reserve_runs(&mut self, n: usize) -> Result<(), Memory>
        ensures state { self.new.state ≡ self.old.state }
        ensures spare { OnOk result (n ≤ self.new.spare) }
        ensures err { OnErr result (self.new ≡ self.old) }
    {
        if self.spare < n {
            runs::reserve(self.alloc, &mut self.runs, &mut self.rooms, n)?;
            self.spare = n;
        }
        Ok(())
    }

    /// Adds records of single keys, of one family and in the order of their internal keys, as a table holds
    /// them. Each takes the place of a record in its slot. Takes no memory that it needs.
    pub fn add_run(&mut self, records: Seq<Record>)
        requires spare { 1 ≤ self.old.spare }
        requires records { IsTableRun records }
        ensures state { self.new.state ≡ with_records records self.old.state }
        ensures spare { self.new.spare ≡ self.old.spare - 1 }
    {
        let records = records.into_vec();
        let (count, held) = runs::counted(self.runs.as_slice(), records.as_slice(), self.count);
        self.count = count;
        self.spare -= 1;
        runs::add(&mut self.runs, &mut self.rooms, records, held);
    }

    /// Begins a run of its own for which there is room, and makes runs one where that is due.
    fn begin(&mut self, records: Vec<Record>)
        requires spare { 1 ≤ self.old.spare }
        requires records { IsRun records.items }
        ensures state { self.new.state ≡ with_records records.items self.old.state }
        ensures spare { self.new.spare ≡ 0 }
    {
        let (count, _) = runs::counted(self.runs.as_slice(), records.as_slice(), self.count);
        self.count = count;
        self.spare = 0;
        runs::begin(&mut self.runs, &mut self.rooms, records);
        runs::settle(self.alloc, &mut self.runs);
    }

    /// The live families, in rising id.
    pub fn families(&self) -> &[FamilyLine]
        ensures families { result.now ≡ self.now.state.families }
        ensures rising { AreRising result.now }
    {
        self.families.as_slice()
    }

    /// The lowest id of a family with this name, or `None` where there is none. Takes no memory.
    pub fn family_named(&self, name: &[u8]) -> Option<u32>
        ensures { result ≡ family_named self.now.state name.now }
    {
        family::named(self.families.as_slice(), name)
    }

    /// How many slots have a record, at most 2^64 - 1. Takes no memory.
    pub fn count(&self) -> u64
        ensures { result ≡ record_count self.now.state }
    {
        self.count
    }

    /// The runs of records, for the view of a key.
    pub(crate) fn runs(&self) -> &[Run]
        ensures runs { All (λ run. IsRun run) result.now }
        ensures few { length result.now ≤ MOST_RUNS }
        ensures map { map_of result.now ≡ self.now.state.records }
        ensures values { IsRun (values self.now.state.records) }
    {
        self.runs.as_slice()
    }

    /// The range deletions, for the view of a key.
    pub(crate) fn tombs(&self) -> &TombSet
        ensures { result.now ≡ self.now.state.tombs }
    {
        &self.tombs
    }
}

/// Adds the range deletion that a record is, if it is one. Where memory runs out, it changes nothing.
fn add_tomb(
    alloc: Global,
    tombs: &mut TombSet,
    added: &Record,
    cut: Option<Cut>,
) -> Result<(), Memory>
    requires { HasWholeBounds cut }
    ensures ok { OnOk result (tombs.new ≡ tombs.old ++ tombs_of cut added.now) }
    ensures err { OnErr result (tombs.new ≡ tombs.old) }
{
    if added.kind != Kind::RangeDeletion {
        return Ok(());
    }
    tombs.add(Tomb {
        family: added.family,
        start: Bytes::copy_of(alloc, added.key.as_slice())?,
        end: Bytes::copy_of(alloc, added.value.as_slice())?,
        sequence: added.sequence,
        cut,
    })
}

/// Adds the range deletions among records, which act on all keys of their ranges. Where memory runs out, some are
/// added.
fn add_tombs(alloc: Global, tombs: &mut TombSet, records: &[Record]) -> Result<(), Memory>
    ensures { OnOk result (tombs.new ≡ tombs.old ++ flat_map (tombs_of None) records.now) }
{
    for record in records {
        add_tomb(alloc, tombs, record, None)?;
    }
    Ok(())
}

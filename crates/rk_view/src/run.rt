//! Runs: records in the strict order of their slots, kept in parts that follow one another.
ghost use Rattle.std.specs.Prelude.{◌≡◌, true, None, is_some, length, IfErr, IfSome, OnErr, OnOk};
ghost use Rattle.std.specs.List.{All};
ghost use Rattle.rk_bytes.specs.Model.Records.{over, slot_of};
ghost use Rattle.rk_view.specs.Maps.{IsRun, look, run_map};
ghost use Rattle.rk_view.specs.Parts.{joined, AreParts, IsRoom};

use crate::parts;
use crate::parts::Hint;
use crate::place::cmp_slots;
use rk_ikey::Record;
use std::marker::Model;

/// How many runs a state keeps at most.
pub const MOST_RUNS: usize = 32;

/// Memory for the list of a run's parts.
pub type Room = Vec<Vec<Record>>;

/// Records in the strict order of their slots. Contracts see them as a list.
///
/// They lie in parts, of which each ends before the next one begins and none is empty.
#[derive(Debug, Drop)]
pub struct Run {
    parts: Vec<Vec<Record>>,
}

impl Model for Run {
    ghost use Rattle.std.specs.Prelude.{List};
    ghost use Rattle.std.specs.Coded.{coded_list};
    ghost use Rattle.rk_bytes.specs.declared.model.key.Record.{Record};
    ghost use Rattle.rk_view.specs.Codes.{coded_record};

    ghost Value = { List Record };

    ghost coded = { coded_list coded_record };

    ghost use Rattle.rk_view.specs.Parts.{joined, AreParts};

    ghost view = { λ r. joined r.parts.items };

    ghost invariant = { λ r. AreParts r.parts.items };
}

impl Run {
    /// A run of these records, with the memory for its list of parts. Takes no memory.
    pub fn of(room: Room, records: Vec<Record>) -> Run
        requires room { IsRoom room }
        requires records { IsRun records.items }
        ensures { result ≡ records.items }
    {
        let mut parts = room;
        if !records.is_empty() {
            parts.push_reserved(records);
        }
        Run { parts }
    }

    /// The records, part by part. No part is empty.
    pub fn parts(&self) -> &[Vec<Record>]
        ensures records { joined result.now ≡ self.now }
        ensures parts { AreParts result.now }
    {
        self.parts.as_slice()
    }

    /// The records, part by part.
    pub fn into_parts(self) -> Vec<Vec<Record>>
        ensures records { joined result.items ≡ self }
        ensures parts { AreParts result.items }
    {
        let Run { parts } = self;
        parts
    }

    /// How many records there are, if a number of this type says that.
    pub fn len(&self) -> Option<usize>
        ensures { IfSome result (λ n. n ≡ length self.now) }
    {
        parts::len(self.parts.as_slice())
    }

    /// Whether a record has the slot of the one that is sought. The search begins at the hint and moves it on.
    pub fn holds(&self, sought: &Record, hint: &mut Hint) -> bool
        ensures { result ≡ is_some (look (slot_of sought.now) self.now) }
    {
        match parts::first_from(self.parts.as_slice(), sought, hint) {
            Some(found) => cmp_slots(found, sought).is_eq(),
            None => false,
        }
    }

    /// Whether the records lie together between two parts, at the front or at the end, so that none of their slots
    /// is held.
    pub fn has_gap(&self, records: &[Record]) -> bool
        requires { IsRun records.now }
        ensures { result ≡ true → All (λ r. look (slot_of r) self.now ≡ None) records.now }
    {
        match parts::gap(self.parts.as_slice(), records) {
            Some(_) => true,
            None => false,
        }
    }

    /// Takes in records that lie together between two parts, at the front or at the end. Gives them back where
    /// they don't, and where memory runs out.
    pub fn take_in(&mut self, records: Vec<Record>) -> Result<(), Vec<Record>>
        requires { IsRun records.items }
        ensures run { IsRun self.new }
        ensures ok { OnOk result (run_map self.new ≡ over (run_map self.old) (run_map records.items)) }
        ensures err { OnErr result (self.new ≡ self.old) }
        ensures back { IfErr result (λ back. back.items ≡ records.items) }
    {
        match parts::gap(self.parts.as_slice(), records.as_slice()) {
            Some(at) => parts::insert(&mut self.parts, at, records),
            None => Err(records),
        }
    }
}

//! Records in the order of their slots.
ghost use Rattle.std.specs.Prelude.{◌≡◌, ◌≤◌, reverse, IfOk, IsTrue};
ghost use Rattle.std.specs.List.{All};
ghost use Rattle.std.specs.List.Sorted.{IsPermutation, IsStable, IsStrictlySortedBy};
ghost use Rattle.rk_bytes.specs.Model.Records.{last_records, slot_cmp, slot_of};
ghost use Rattle.rk_view.specs.Maps.{IsRun};

use crate::lead;
use crate::place::cmp_slots;
use rk_bytes::Memory;
use rk_ikey::{Record, TOP};

/// The last record of each slot, in the order of their slots. `Memory` comes only where memory runs out.
pub fn last_of_each(records: Vec<Record>) -> Result<Vec<Record>, Memory>
    requires { All (λ r. r.sequence ≤ TOP) records.items }
    ensures run { IfOk result (λ sorted. IsRun sorted.items) }
    ensures map { IfOk result (λ sorted. last_records sorted.items ≡ last_records records.items) }
{
    // A stable sort of the list turned round has the last record of a slot before the others.
    let mut sorted = near(turned(records))?;
    if rises(sorted.as_slice()) {
        return Ok(sorted);
    }
    sorted.sort_by(|a, b| cmp_slots(a, b))?;
    sorted.dedup_by(|other, kept| cmp_slots(other, kept).is_eq());
    Ok(sorted)
}

/// The records nearly in the order of their slots, those of one slot in the order that they had. What is left for a
/// sort by slots then takes few steps. `Memory` comes only where memory runs out.
fn near(records: Vec<Record>) -> Result<Vec<Record>, Memory>
    ensures permutation { IfOk result (λ near. IsPermutation records.items near.items) }
    ensures stable { IfOk result (λ near. IsStable (λ r s. slot_cmp (slot_of r) (slot_of s)) records.items near.items) }
{
    let from = lead::shared(records.as_slice());
    let mut near = records;
    near.sort_by_cached_key(|record| lead::lead(record.key.as_slice(), from))?;
    near.sort_by_key(|record| record.family)?;
    Ok(near)
}

/// Whether each record has a greater slot than the one before it.
fn rises(records: &[Record]) -> bool
    ensures { IsTrue result → IsStrictlySortedBy (λ r s. slot_cmp (slot_of r) (slot_of s)) records.now }
{
    records.is_sorted_by(|a, b| cmp_slots(a, b).is_lt())
}

/// Records turned round.
pub fn turned(records: Vec<Record>) -> Vec<Record>
    ensures { result.items ≡ reverse records.items }
{
    let mut turned = records;
    turned.as_mut_slice().reverse();
    turned
}

//! The parts of a run: where a slot, a place or a list of records lies among them.
ghost use Rattle.std.specs.Prelude.{◌≡◌, ◌<◌, ◌≤◌, ◌-◌, ◌++◌, find, length, take, drop, slice_get, vec_len, IfErr, IfSome, OnErr, OnOk, Some};
ghost use Rattle.std.specs.List.{insert};
ghost use Rattle.std.specs.Option.{option_copied};
ghost use Rattle.rk_bytes.specs.Model.Records.{slot_of};
ghost use Rattle.rk_view.specs.Places.{is_after, is_from};
ghost use Rattle.rk_view.specs.Maps.{IsRun};
ghost use Rattle.rk_view.specs.Parts.{joined, last_is, AreParts, IsPartAt, ends_before};

use crate::place::{Place, cmp_slots};
use crate::seek::seek;
use rk_ikey::Record;

/// Where a search for a slot begins. The hint makes it short and changes nothing of what it finds.
#[derive(Clone, Copy, Debug)]
pub struct Hint {
    pub part: usize,
    pub record: usize,
}

/// How many records there are in all parts, if a number of this type says that.
pub fn len(parts: &[Vec<Record>]) -> Option<usize>
    ensures { IfSome result (λ n. n ≡ length (joined parts.now)) }
{
    let mut total: usize = 0;
    for part in parts {
        total = total.checked_add(part.len())?;
    }
    Some(total)
}

/// The first part with a record after a place.
pub fn part_after(parts: &[Vec<Record>], place: &Place<'_>) -> usize
    requires { AreParts parts.now }
    ensures bound { result ≤ length parts.now }
    ensures at { IsPartAt (is_after place.now.family place.now.user.now place.now.below) parts.now result }
{
    parts.partition_point(|part| !ends_after(part.as_slice(), place))
}

/// Whether the last record comes after a place.
fn ends_after(part: &[Record], place: &Place<'_>) -> bool
    ensures { result ≡ last_is (is_after place.now.family place.now.user.now place.now.below) part.now }
{
    match part.last() {
        Some(last) => place.is_before(last),
        None => false,
    }
}

/// The first record that isn't before the slot of the one that is sought. The hint moves there.
pub fn first_from<'r>(
    parts: &'r [Vec<Record>],
    sought: &Record,
    hint: &mut Hint,
) -> Option<&'r Record>
    requires { AreParts parts.now }
    ensures { option_copied result ≡ find (is_from (slot_of sought.now)) (joined parts.now) }
{
    match first_near(parts, sought, hint) {
        Some(found) => Some(found),
        None => first_of_all(parts, sought, hint),
    }
}

/// The same, where it lies in the hint's part and isn't the first one there.
fn first_near<'r>(parts: &'r [Vec<Record>], sought: &Record, hint: &mut Hint) -> Option<&'r Record>
    requires { AreParts parts.now }
    ensures { IfSome result (λ found. Some found.now ≡ find (is_from (slot_of sought.now)) (joined parts.now)) }
{
    match parts.get(hint.part) {
        Some(part) => {
            hint.record = seek(part.as_slice(), sought, hint.record);
            behind_first(part.as_slice(), hint.record)
        }
        None => None,
    }
}

/// The record at an index, unless that is the first.
fn behind_first<'r>(part: &'r [Record], index: usize) -> Option<&'r Record>
    ensures { IfSome result (λ found. (0 < index) × (index < length part.now) × (Some found.now ≡ slice_get part.now index)) }
{
    if index == 0 {
        return None;
    }
    part.get(index)
}

/// The same, found by bisection among the parts.
fn first_of_all<'r>(
    parts: &'r [Vec<Record>],
    sought: &Record,
    hint: &mut Hint,
) -> Option<&'r Record>
    requires { AreParts parts.now }
    ensures { option_copied result ≡ find (is_from (slot_of sought.now)) (joined parts.now) }
{
    hint.part = part_from(parts, sought);
    match parts.get(hint.part) {
        Some(part) => {
            hint.record = seek(part.as_slice(), sought, 0);
            part.as_slice().get(hint.record)
        }
        None => None,
    }
}

/// The first part with a record that isn't before the slot of the one that is sought.
fn part_from(parts: &[Vec<Record>], sought: &Record) -> usize
    requires { AreParts parts.now }
    ensures bound { result ≤ length parts.now }
    ensures at { IsPartAt (is_from (slot_of sought.now)) parts.now result }
{
    parts.partition_point(|part| !ends_from(part.as_slice(), sought))
}

/// Whether the last record isn't before the slot of the one that is sought.
fn ends_from(part: &[Record], sought: &Record) -> bool
    ensures { result ≡ last_is (is_from (slot_of sought.now)) part.now }
{
    match part.last() {
        Some(last) => !cmp_slots(last, sought).is_lt(),
        None => false,
    }
}

/// Before which part all of the records lie, where they lie together between two parts, at the front or at
/// the end.
pub fn gap(parts: &[Vec<Record>], records: &[Record]) -> Option<usize>
    requires parts { AreParts parts.now }
    requires records { IsRun records.now }
    ensures { IfSome result (λ at. (at ≤ length parts.now) × (0 < length records.now) × IsRun (joined (take at parts.now) ++ (records.now ++ joined (drop at parts.now)))) }
{
    let first = records.first()?;
    let at = part_from(parts, first);
    match parts.get(at) {
        Some(part) => {
            if ends_before(records, part.as_slice()) {
                Some(at)
            } else {
                None
            }
        }
        None => Some(at),
    }
}

/// Whether the last record of the one list comes before the first of the other.
fn ends_before(records: &[Record], later: &[Record]) -> bool
    ensures { result ≡ ends_before (slice_get records.now (length records.now - 1)) (slice_get later.now 0) }
{
    match (records.last(), later.first()) {
        (Some(last), Some(first)) => cmp_slots(last, first).is_lt(),
        _ => false,
    }
}

/// Puts a part in its place. Gives it back where memory runs out.
pub fn insert(parts: &mut Vec<Vec<Record>>, at: usize, part: Vec<Record>) -> Result<(), Vec<Record>>
    requires { at ≤ vec_len parts.old }
    ensures ok { OnOk result (parts.new.items ≡ insert parts.old.items at part) }
    ensures err { OnErr result (parts.new.items ≡ parts.old.items) }
    ensures back { IfErr result (λ back. back.items ≡ part.items) }
{
    match parts.insert(at, part) {
        Ok(()) => Ok(()),
        Err(failed) => Err(failed.value),
    }
}

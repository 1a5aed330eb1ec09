//! The bounds of a table's keys.
ghost use Rattle.std.specs.Prelude.{◌≡◌, ◌≤◌, ◌++◌, length, map, fold, max, IfOk, IfSome};
ghost use Rattle.std.specs.Option.{ForSome};
ghost use Rattle.std.specs.List.{reduce};
ghost use Rattle.rk_bytes.specs.Model.TableStatus.{start_key, end_key, lesser, greater};
ghost use Rattle.rk_table.specs.Told.{value_of};
ghost use Rattle.rk_table.specs.Stages.{listed};
ghost use Rattle.rk_table.specs.Steps.{AreBelowTop};
ghost use Rattle.rk_table.specs.Data.{AreRangeBounds, lesser_of, greater_of};

use crate::RangeDel;
use rk_bytes::model::Kind;
use rk_bytes::{Bytes, Memory};
use rk_ikey::{TOP, cmp_keys, internal_key};
use std::alloc::Global;
use std::cmp::Ordering;

/// The least and the greatest key of a table, if it has one.
#[derive(Debug, Drop)]
pub(crate) struct Bounds {
    pub(crate) smallest: Option<Bytes>,
    pub(crate) largest: Option<Bytes>,
}

/// The bounds of keys with these bounds and of range deletions.
pub(crate) fn bounds_with(
    alloc: Global,
    smallest: Option<&[u8]>,
    largest: Option<&[u8]>,
    ranges: &[RangeDel],
) -> Result<Bounds, Memory>
    requires top { AreBelowTop ranges.now }
    requires smallest_long { ForSome smallest (λ key. 8 ≤ length key.now) }
    requires largest_long { ForSome largest (λ key. 8 ≤ length key.now) }
    ensures { IfOk result (AreRangeBounds (value_of smallest.entry) (value_of largest.entry) ranges.now) }
{
    Ok(Bounds {
        smallest: least(alloc, smallest, ranges)?,
        largest: greatest(alloc, largest, ranges)?,
    })
}

/// The least of this key, if there is one, and the keys at the range deletions' starts.
fn least(alloc: Global, key: Option<&[u8]>, ranges: &[RangeDel]) -> Result<Option<Bytes>, Memory>
    requires top { AreBelowTop ranges.now }
    requires long { ForSome key (λ key. 8 ≤ length key.now) }
    ensures { IfOk result (λ least. least ≡ reduce lesser (listed (value_of key.entry) ++ map start_key ranges.now)) }
{
    let mut least = copied(alloc, key)?;
    for range in ranges {
        let start = internal_key(
            alloc,
            range.start.as_slice(),
            range.sequence,
            Kind::RangeDeletion,
        )?;
        least = Some(lesser(least, start));
    }
    Ok(least)
}

/// The greatest of this key, if there is one, and the keys at the range deletions' ends.
fn greatest(alloc: Global, key: Option<&[u8]>, ranges: &[RangeDel]) -> Result<Option<Bytes>, Memory>
    requires long { ForSome key (λ key. 8 ≤ length key.now) }
    ensures { IfOk result (λ greatest. greatest ≡ reduce greater (listed (value_of key.entry) ++ map end_key ranges.now)) }
{
    let mut greatest = copied(alloc, key)?;
    for range in ranges {
        let end = internal_key(alloc, range.end.as_slice(), TOP, Kind::RangeDeletion)?;
        greatest = Some(greater(greatest, end));
    }
    Ok(greatest)
}

/// The lesser of two internal keys, of which the first may not be there.
fn lesser(known: Option<Bytes>, key: Bytes) -> Bytes
    requires known_long { ForSome known (λ known. 8 ≤ length known) }
    requires key_long { 8 ≤ length key }
    ensures { result ≡ lesser_of known key }
{
    match known {
        Some(known) if cmp_keys(known.as_slice(), key.as_slice()) != Ordering::Greater => known,
        _ => key,
    }
}

/// The greater of two internal keys, of which the first may not be there.
fn greater(known: Option<Bytes>, key: Bytes) -> Bytes
    requires known_long { ForSome known (λ known. 8 ≤ length known) }
    requires key_long { 8 ≤ length key }
    ensures { result ≡ greater_of known key }
{
    match known {
        Some(known) if cmp_keys(known.as_slice(), key.as_slice()) != Ordering::Less => known,
        _ => key,
    }
}

/// A copy of the key, if there is one.
fn copied(alloc: Global, key: Option<&[u8]>) -> Result<Option<Bytes>, Memory>
    ensures { IfOk result (λ copy. copy ≡ value_of key.entry) }
{
    match key {
        Some(key) => Ok(Some(Bytes::copy_of(alloc, key)?)),
        None => Ok(None),
    }
}

/// The greatest of this sequence number and those of the range deletions.
pub(crate) fn top_with(top: u64, ranges: &[RangeDel]) -> u64
    ensures { result ≡ fold max top (map (λ range. range.sequence) ranges.now) }
{
    let mut top = top;
    for range in ranges {
        top = top.max(range.sequence);
    }
    top
}

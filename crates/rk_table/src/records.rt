//! What is kept of the records of one data block.
ghost use Rattle.std.specs.Prelude.{◌≡◌, ◌≤◌, false, not, ◌&&◌, length, IfOk, IfErr};
ghost use Rattle.std.specs.Option.{ForSome};
ghost use Rattle.std.specs.Ordering.{is_gt};
ghost use Rattle.rk_bytes.specs.Model.TableStatus.{is_above, separator_cmp};
ghost use Rattle.rk_table.specs.Told.{value_of};
ghost use Rattle.rk_table.specs.Walks.{IsWalk, block_told};
ghost use Rattle.rk_table.specs.Blocks.{data_told, Counts, SeesRecords, Sees};

use crate::fault::damaged;
use crate::walk::Walk;
use crate::{IndexEntry, TableWhy, WalkErr};
use rk_bytes::Bytes;
use rk_ikey::{cmp_keys, split_key};
use std::alloc::Global;
use std::cmp::Ordering;

/// What is known of the records of a data block, of which there is one at least.
#[derive(Debug, Drop)]
pub(crate) struct Records {
    /// How many there are.
    pub(crate) entries: u64,
    /// The greatest sequence number.
    pub(crate) top: u64,
    /// The key of the first.
    pub(crate) first: Bytes,
    /// The key of the last.
    pub(crate) last: Bytes,
}

/// Tests a data block, whose records follow this key and whose keys lie above this separator.
pub(crate) fn separated_records(
    alloc: Global,
    at: &IndexEntry,
    user_keys: bool,
    before: Option<&[u8]>,
    lower: Option<&[u8]>,
    block: &[u8],
) -> Result<Records, WalkErr>
    requires before_long { ForSome before (λ key. 8 ≤ length key.now) }
    requires lower_long { user_keys ≡ false → ForSome lower (λ key. 8 ≤ length key.now) }
    requires upper_long { user_keys ≡ false → 8 ≤ length at.now.separator }
    ensures { Sees (value_of before.entry) (data_told user_keys (value_of before.entry) (value_of lower.entry) at.now block.now) result }
{
    let place = at.block.offset;
    match read_records(alloc, place, before, block)? {
        Some(records) if are_separated(user_keys, lower, at.separator.as_slice(), &records) => {
            Ok(records)
        }
        _ => Err(damaged(TableWhy::BadSeparator, place)),
    }
}

/// Reads a data block at this place, whose records follow this key. `None` where it has no record.
fn read_records(
    alloc: Global,
    place: u64,
    before: Option<&[u8]>,
    block: &[u8],
) -> Result<Option<Records>, WalkErr>
    requires { ForSome before (λ key. 8 ≤ length key.now) }
    ensures { SeesRecords (value_of before.entry) (block_told place (value_of before.entry) block.now) result }
{
    let mut walk = Walk::new(alloc, place, before, block)?;
    let Some(record) = walk.next()? else {
        return Ok(None);
    };
    let first = copied(alloc, walk.key())?;
    let (entries, top) = count_rest(&mut walk, 1, record.sequence)?;
    let last = copied(alloc, walk.key())?;
    Ok(Some(Records {
        entries,
        top,
        first,
        last,
    }))
}

/// Goes to the end of a walk. Counts its records on from a number of entries, and takes the greatest of
/// this sequence number and theirs.
fn count_rest(walk: &mut Walk<'_>, entries: u64, top: u64) -> Result<(u64, u64), WalkErr>
    requires { IsWalk walk.old }
    ensures { Counts walk.old entries top result walk.new.key }
{
    let mut entries = entries;
    let mut top = top;
    while let Some(record) = walk.next()? {
        entries = entries.saturating_add(1);
        top = top.max(record.sequence);
    }
    Ok((entries, top))
}

/// A copy of the key.
fn copied(alloc: Global, key: &[u8]) -> Result<Bytes, WalkErr>
    ensures ok { IfOk result (λ copy. copy ≡ key.now) }
    ensures err { IfErr result (λ error. error ≡ WalkErr.Memory) }
{
    match Bytes::copy_of(alloc, key) {
        Ok(copy) => Ok(copy),
        Err(_) => Err(WalkErr::Memory),
    }
}

/// Whether the first key is above the separator before, and the last isn't above the block's own.
fn are_separated(user_keys: bool, lower: Option<&[u8]>, upper: &[u8], records: &Records) -> bool
    requires first_long { 8 ≤ length records.now.first }
    requires last_long { 8 ≤ length records.now.last }
    requires lower_long { user_keys ≡ false → ForSome lower (λ key. 8 ≤ length key.now) }
    requires upper_long { user_keys ≡ false → 8 ≤ length upper.now }
    ensures { result ≡ (is_above (separator_cmp user_keys) records.now.first (value_of lower.entry) && not (is_gt (separator_cmp user_keys records.now.last upper.now))) }
{
    let is_above = match lower {
        Some(lower) => {
            separator_cmp(user_keys, records.first.as_slice(), lower) == Ordering::Greater
        }
        None => true,
    };
    is_above && separator_cmp(user_keys, records.last.as_slice(), upper) != Ordering::Greater
}

/// How an internal key stands to a separator, which is a user key or an internal key too.
fn separator_cmp(user_keys: bool, key: &[u8], separator: &[u8]) -> Ordering
    requires key_long { 8 ≤ length key.now }
    requires separator_long { user_keys ≡ false → 8 ≤ length separator.now }
    ensures { result ≡ separator_cmp user_keys key.now separator.now }
{
    if user_keys {
        split_key(key).0.cmp(separator)
    } else {
        cmp_keys(key, separator)
    }
}

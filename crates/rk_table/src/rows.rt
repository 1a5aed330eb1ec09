//! The records of one data block of a table.
ghost use Rattle.std.specs.Prelude.{◌≡◌, ◌≤◌, ◌<◌, ◌∷◌, ◌++◌, [], ℕ, List, Some, Ok, take, length, slice_get, IfOk, IfErr, OnOk};
ghost use Rattle.std.specs.Option.{ForSome};
ghost use Rattle.rk_bytes.specs.Model.TableStatus.{DataEntry, record_in};
ghost use Rattle.rk_table.specs.Told.{value_of};
ghost use Rattle.rk_table.specs.Walks.{handed_out};
ghost use Rattle.rk_bytes.specs.Model.TableFooter.{checked_block};
ghost use Rattle.rk_table.specs.Left.{from_block, TakesBlock};
ghost use Rattle.rk_table.specs.Rows.{GivesRecords};

use crate::walk::{Checked, Walk};
use crate::{IndexEntry, Record, TableRef, WalkErr};
use rk_bytes::{Bytes, Memory, Seq};
use rk_ikey::split_key;
use std::alloc::Global;

/// A list of records has room for one in so many bytes of their block from the start.
const ROOM_LEN: usize = 64;

/// For how many records a list has room from the start at most.
const MOST_ROOM: usize = 1024;

/// The records of the data block with this number in a table's index, counted from 0, under the table's
/// family: those of a block's bytes whose keys follow a key, if there is one. The first fault is that of
/// the block's entries or restart offsets, then at the first entry of which the key is none of a data
/// record (`BadKey`), the kind isn't supported (`RecordKind`) or the key isn't above the one before
/// (`BadOrder`). Its place is the block's offset. `Memory` comes only where memory runs out.
pub fn block_records(
    alloc: Global,
    table: &TableRef,
    number: u64,
    after: Option<&[u8]>,
    block: &[u8],
) -> Result<Seq<Record>, WalkErr>
    requires number { number < length table.now.index }
    requires after { ForSome after (λ key. 8 ≤ length key.now) }
    ensures records { (at : IndexEntry) → slice_get table.now.index number ≡ Some at → GivesRecords table.now.family at.block.offset (value_of after.entry) block.now result }
    // Of a good table's bytes, where what is left of its records begins with this block.
    ensures good { (bytes : List ℕ) (at : IndexEntry) (entries : List DataEntry) → slice_get table.now.index number ≡ Some at → checked_block (take table.now.start bytes) at.block table.now.sum ≡ Ok block.now → from_block bytes table.now number (value_of after.entry) ≡ Ok entries → TakesBlock bytes table.now number entries result }
{
    block_records_over(alloc, Seq::new(alloc), table, number, after, block)
}

/// The same records, in the memory of these as far as that goes, which are used no more.
pub fn block_records_over(
    alloc: Global,
    used: Seq<Record>,
    table: &TableRef,
    number: u64,
    after: Option<&[u8]>,
    block: &[u8],
) -> Result<Seq<Record>, WalkErr>
    requires number { number < length table.now.index }
    requires after { ForSome after (λ key. 8 ≤ length key.now) }
    ensures records { (at : IndexEntry) → slice_get table.now.index number ≡ Some at → GivesRecords table.now.family at.block.offset (value_of after.entry) block.now result }
    ensures good { (bytes : List ℕ) (at : IndexEntry) (entries : List DataEntry) → slice_get table.now.index number ≡ Some at → checked_block (take table.now.start bytes) at.block table.now.sum ≡ Ok block.now → from_block bytes table.now number (value_of after.entry) ≡ Ok entries → TakesBlock bytes table.now number entries result }
{
    let place = table.index.as_slice()[number as usize].block.offset;
    walk_records(alloc, used.into_vec(), table.family, place, after, block)
}

/// The records of a data block at this place, under this family, in the memory of those that were used.
fn walk_records(
    alloc: Global,
    used: Vec<Record>,
    family: u32,
    place: u64,
    after: Option<&[u8]>,
    block: &[u8],
) -> Result<Seq<Record>, WalkErr>
    requires { ForSome after (λ key. 8 ≤ length key.now) }
    ensures { GivesRecords family place (value_of after.entry) block.now result }
{
    let mut used = used;
    let mut walk = Walk::new(alloc, place, after, block)?;
    let mut records = list_for(alloc, block.len())?;
    while let Some(checked) = walk.next()? {
        push_record(alloc, &mut used, &mut records, family, walk.key(), checked)?;
    }
    Ok(records)
}

/// An empty list for the records of a block of so many bytes, with room for some of them.
fn list_for(alloc: Global, block_len: usize) -> Result<Seq<Record>, WalkErr>
    ensures ok { IfOk result (λ list. list ≡ []) }
    ensures err { IfErr result (λ error. error ≡ WalkErr.Memory) }
{
    match Vec::with_capacity(alloc, (block_len / ROOM_LEN).min(MOST_ROOM)) {
        Ok(room) => Ok(Seq::from_vec(room)),
        Err(_) => Err(WalkErr::Memory),
    }
}

/// Puts a data record under this internal key at the end, in the memory of one that was used, if there is one.
fn push_record(
    alloc: Global,
    used: &mut Vec<Record>,
    records: &mut Seq<Record>,
    family: u32,
    key: &[u8],
    checked: Checked<'_>,
) -> Result<(), WalkErr>
    requires { 8 ≤ length key.now }
    ensures ok { OnOk result (records.new ≡ records.old ++ record_in family (handed_out checked.entry key.now) ∷ []) }
    ensures err { IfErr result (λ error. error ≡ WalkErr.Memory) }
{
    let Ok(record) = next_record(alloc, used, family, key, checked) else {
        return Err(WalkErr::Memory);
    };
    match records.push(record) {
        Ok(()) => Ok(()),
        Err(_) => Err(WalkErr::Memory),
    }
}

/// A data record under this internal key, in the memory of the last one that was used, if there is one.
fn next_record(
    alloc: Global,
    used: &mut Vec<Record>,
    family: u32,
    key: &[u8],
    checked: Checked<'_>,
) -> Result<Record, Memory>
    requires { 8 ≤ length key.now }
    ensures { IfOk result (λ made. made ≡ record_in family (handed_out checked.entry key.now)) }
{
    match used.pop() {
        Some(record) => refilled(record, family, key, checked),
        None => made_record(alloc, family, key, checked),
    }
}

/// A data record under this internal key, in the memory of another.
fn refilled(used: Record, family: u32, key: &[u8], checked: Checked<'_>) -> Result<Record, Memory>
    requires { 8 ≤ length key.now }
    ensures { IfOk result (λ made. made ≡ record_in family (handed_out checked.entry key.now)) }
{
    let (user, _) = split_key(key);
    Ok(Record {
        family,
        key: copied_over(used.key, user)?,
        sequence: checked.sequence,
        kind: checked.kind,
        value: copied_over(used.value, checked.value)?,
    })
}

/// The bytes, in the memory of others.
fn copied_over(used: Bytes, bytes: &[u8]) -> Result<Bytes, Memory>
    ensures { IfOk result (λ copy. copy ≡ bytes.now) }
{
    let mut used = used;
    used.truncate(0);
    used.append(bytes)?;
    Ok(used)
}

/// A data record under this internal key.
pub(crate) fn made_record(
    alloc: Global,
    family: u32,
    key: &[u8],
    checked: Checked<'_>,
) -> Result<Record, Memory>
    requires { 8 ≤ length key.now }
    ensures { IfOk result (λ made. made ≡ record_in family (handed_out checked.entry key.now)) }
{
    let (user, _) = split_key(key);
    Ok(Record {
        family,
        key: Bytes::copy_of(alloc, user)?,
        sequence: checked.sequence,
        kind: checked.kind,
        value: Bytes::copy_of(alloc, checked.value)?,
    })
}

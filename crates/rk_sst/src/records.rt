//! The records of one data block of a table on a disk.
ghost use Rattle.std.specs.Prelude.{◌≡◌, ◌<◌, ◌≤◌, List, ℕ, Some, Ok, false, take, length, slice_get, IfOk, IfSome, OnOk, OnErr, MatchResult};
ghost use Rattle.std.specs.List.{AllByRecursion};
ghost use Rattle.std.specs.Option.{ForSome};
ghost use Rattle.rk_bytes.specs.Model.DiskImages.{IsLeft, contents_told, Counts};
ghost use Rattle.rk_bytes.specs.Model.TableFooter.{checked_block};
ghost use Rattle.rk_bytes.specs.Model.TableStatus.{DataEntry};
ghost use Rattle.rk_bytes.specs.declared.model.block.IndexEntry.{IndexEntry};
ghost use Rattle.rk_table.specs.Left.{from_block};
ghost use Rattle.rk_table.specs.Told.{value_of};
ghost use Rattle.rk_cache.specs.Answers.{table_in, HoldsFor};
ghost use Rattle.rk_sst.specs.Errors.{disk_failed};
ghost use Rattle.rk_sst.specs.Rising.{RiseFrom, last_given};
ghost use Rattle.rk_sst.specs.Taken.{TakesNext};

use crate::error::block_err;
use crate::{Record, SstErr, TableRef};
use rk_bytes::{Bytes, Memory, Seq};
use rk_cache::BlockCache;
use rk_disk::Disk;
use rk_ikey::{TOP, internal_key};
use rk_table::block_records_over;
use std::alloc::Global;

/// Reads the records of the data block with this number of a table, which come after the last key that was given,
/// in the memory of those that were used. The last key is then that of the last of them. After an error it is as before.
pub(crate) fn take_block<D: Disk>(
    alloc: Global,
    used: Seq<Record>,
    cache: &mut BlockCache,
    disk: &mut D,
    number: u64,
    table: &TableRef,
    block: usize,
    last: &mut Option<Bytes>,
) -> Result<Seq<Record>, SstErr>
    requires within { block < length table.now.index }
    requires holds { IfSome (contents_told (D.told disk.old)) (HoldsFor cache.old.kept) }
    requires long { IfSome last.old (λ key. 8 ≤ length key) }
    ensures records { IfSome (contents_told (D.told disk.old)) (λ files. (entries : List DataEntry) → from_block (table_in files number) table.now block last.old ≡ Ok entries → TakesNext (table_in files number) table.now block last.old entries result) }
    ensures rising { IfOk result (RiseFrom table.now.family last.old) }
    ensures last { MatchResult result (λ records. last.new ≡ last_given last.old records) (λ _. last.new ≡ last.old) }
    ensures long { IfSome last.new (λ key. 8 ≤ length key) }
    ensures holds { IfSome (contents_told (D.told disk.old)) (HoldsFor cache.new.kept) }
    ensures left { IsLeft (D.told disk.old) (D.told disk.new) }
    ensures faults { Counts (disk_failed result) (D.faults disk.old) (D.faults disk.new) }
{
    let records = read_records(alloc, used, cache, disk, number, table, block, last)?;
    keep_last(alloc, records.as_slice(), last)?;
    Ok(records)
}

/// Reads the records of the data block with this number of a table, which come after this key, if there is one.
fn read_records<D: Disk>(
    alloc: Global,
    used: Seq<Record>,
    cache: &mut BlockCache,
    disk: &mut D,
    number: u64,
    table: &TableRef,
    block: usize,
    last: &Option<Bytes>,
) -> Result<Seq<Record>, SstErr>
    requires within { block < length table.now.index }
    requires holds { IfSome (contents_told (D.told disk.old)) (HoldsFor cache.old.kept) }
    requires long { IfSome last.now (λ key. 8 ≤ length key) }
    ensures records { IfSome (contents_told (D.told disk.old)) (λ files. (entries : List DataEntry) → from_block (table_in files number) table.now block last.now ≡ Ok entries → TakesNext (table_in files number) table.now block last.now entries result) }
    ensures rising { IfOk result (RiseFrom table.now.family last.now) }
    ensures holds { IfSome (contents_told (D.told disk.old)) (HoldsFor cache.new.kept) }
    ensures left { IsLeft (D.told disk.old) (D.told disk.new) }
    ensures faults { Counts (disk_failed result) (D.faults disk.old) (D.faults disk.new) }
{
    let handle = table.index.as_slice()[block].block;
    match cache.read_block(disk, number, table.start, handle, table.sum) {
        Ok(bytes) => records_in(alloc, used, table, block, key_slice(last), bytes),
        Err(fault) => Err(block_err(handle.offset, fault)),
    }
}

/// The records of the data block with this number of a table, of which these are the bytes. They come after this
/// key, if there is one.
fn records_in(
    alloc: Global,
    used: Seq<Record>,
    table: &TableRef,
    block: usize,
    last: Option<&[u8]>,
    bytes: &[u8],
) -> Result<Seq<Record>, SstErr>
    requires within { block < length table.now.index }
    requires long { ForSome last (λ key. 8 ≤ length key.now) }
    ensures records { (whole : List ℕ) (at : IndexEntry) (entries : List DataEntry) → slice_get table.now.index block ≡ Some at → checked_block (take table.now.start whole) at.block table.now.sum ≡ Ok bytes.now → from_block whole table.now block (value_of last.entry) ≡ Ok entries → TakesNext whole table.now block (value_of last.entry) entries result }
    ensures rising { IfOk result (RiseFrom table.now.family (value_of last.entry)) }
    ensures calm { disk_failed result ≡ false }
{
    let records = block_records_over(alloc, used, table, block as u64, last, bytes)?;
    Ok(records)
}

/// The key's bytes, if there is one.
fn key_slice(key: &Option<Bytes>) -> Option<&[u8]>
    ensures { value_of result ≡ key.now }
{
    match key {
        Some(key) => Some(key.as_slice()),
        None => None,
    }
}

/// Makes the last key that of the last of these records, if there is one.
fn keep_last(alloc: Global, records: &[Record], last: &mut Option<Bytes>) -> Result<(), Memory>
    requires { AllByRecursion (λ r. r.sequence ≤ TOP) records.now }
    ensures ok { OnOk result (last.new ≡ last_given last.old records.now) }
    ensures err { OnErr result (last.new ≡ last.old) }
{
    if let Some(record) = records.last() {
        let key = internal_key(alloc, record.key.as_slice(), record.sequence, record.kind)?;
        *last = Some(key);
    }
    Ok(())
}

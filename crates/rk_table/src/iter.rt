//! The data records of a table, one after another.
ghost use Rattle.std.specs.Prelude.{◌≡◌, ◌≤◌, ◌<◌, false, ℕ, List, Ok, length, IfOk, IfSome};
ghost use Rattle.std.specs.Option.{ForSome};
ghost use Rattle.rk_bytes.specs.Model.TableStatus.{DataEntry, Good, table_status};
ghost use Rattle.rk_table.specs.Told.{value_of};
ghost use Rattle.rk_table.specs.Walks.{IsWalk, walk_left};
ghost use Rattle.rk_table.specs.Left.{IsGood, Running, StepsOn, RecordOf, Opened, GivesNext, from_block, last_of};

use crate::front::front;
use crate::rows::made_record;
use crate::walk::Walk;
use crate::{Record, TableRef, WalkErr};
use rk_bytes::Memory;
use rk_meta::checked_block;
use std::alloc::Global;
use std::marker::Model;

/// The data records of a table that weren't handed out yet. Contracts see them as a list, beside whether
/// memory ran out: then no more is handed out.
#[derive(Debug, Drop)]
pub struct TableIter<'a> {
    alloc: Global,
    bytes: &'a [u8],
    table: &'a TableRef,
    /// The number of the next data block.
    number: usize,
    /// The records that are left of the block before it.
    walk: Option<Walk<'a>>,
    failed: bool,
}

impl<'a> Model for TableIter<'a> {
    ghost use Rattle.rk_table.specs.Left.{IterSeen, records_left, IsIter};

    ghost Value = { IterSeen };

    ghost view = { λ i. record { left = records_left i.bytes.now i.table.now i.number i.walk; failed = i.failed } };

    ghost invariant = { λ i. IsIter i.bytes.now i.table.now i.number i.walk i.failed };
}

impl<'a> TableIter<'a> {
    /// All data records of a table, of which the bytes' status is good and this. Takes no memory yet.
    pub fn new(alloc: Global, bytes: &'a [u8], table: &'a TableRef) -> TableIter<'a>
        requires { IsGood bytes.now table.now }
        ensures records { (good : Good) → table_status bytes.now ≡ Ok good → result.left ≡ good.records }
        ensures failed { result.failed ≡ false }
    {
        TableIter {
            alloc,
            bytes,
            table,
            number: 0,
            walk: None,
            failed: false,
        }
    }

    /// The next record in the order of the table, or `None` where none is left. After `Memory`, which comes
    /// where memory runs out, every further call gives `Memory`.
    pub fn next_record(&mut self) -> Result<Option<Record>, Memory>
        ensures { GivesNext self.old result self.new }
    {
        if self.failed {
            return Err(Memory);
        }
        let next = next_in(
            self.alloc,
            self.bytes,
            self.table,
            &mut self.number,
            &mut self.walk,
        );
        self.failed = next.is_err();
        next
    }
}

/// The next record of a table whose next data block has this number, after those of the walk.
fn next_in<'a>(
    alloc: Global,
    bytes: &'a [u8],
    table: &TableRef,
    number: &mut usize,
    walk: &mut Option<Walk<'a>>,
) -> Result<Option<Record>, Memory>
    requires { Running bytes.now table.now number.old walk.old }
    ensures { StepsOn bytes.now table.now number.old walk.old result number.new walk.new }
{
    if let Some(open) = walk
        && let Some(record) = next_of_walk(alloc, table.family, open)?
    {
        return Ok(Some(record));
    }
    if *number >= table.index.as_slice().len() {
        return Ok(None);
    }
    let mut next = open_block(alloc, bytes, table, *number, last_key(walk))?;
    let record = next_of_walk(alloc, table.family, &mut next)?;
    *walk = Some(next);
    *number += 1;
    Ok(record)
}

/// The key of the last record that was handed out, if there is one.
fn last_key<'b>(walk: &'b Option<Walk<'_>>) -> Option<&'b [u8]>
    requires { IfSome walk.now IsWalk }
    ensures value { value_of result ≡ last_of walk.now }
    ensures long { IfSome result (λ key. 8 ≤ length key.now) }
{
    match walk {
        Some(walk) => walk.last_key(),
        None => None,
    }
}

/// The next record of a walk over a block that reads, under this family.
fn next_of_walk(alloc: Global, family: u32, walk: &mut Walk<'_>) -> Result<Option<Record>, Memory>
    requires walk { IsWalk walk.old }
    requires reads { (more : List DataEntry) × (walk_left walk.old ≡ Ok more) }
    ensures { RecordOf family walk.old result walk.new }
{
    match walk.next() {
        Ok(Some(checked)) => {
            let record = made_record(alloc, family, walk.key(), checked)?;
            Ok(Some(record))
        }
        Ok(None) => Ok(None),
        Err(WalkErr::Memory) => Err(Memory),
        Err(_) => unreachable!(),
    }
}

/// A walk over the data block with this number of a table, whose records follow this key.
fn open_block<'a>(
    alloc: Global,
    bytes: &'a [u8],
    table: &TableRef,
    number: usize,
    before: Option<&[u8]>,
) -> Result<Walk<'a>, Memory>
    requires within { number < length table.now.index }
    requires long { ForSome before (λ key. 8 ≤ length key.now) }
    requires reads { (entries : List DataEntry) × (from_block bytes.now table.now number (value_of before) ≡ Ok entries) }
    ensures { IfOk result (Opened bytes.now table.now number (value_of before.entry)) }
{
    let at = &table.index.as_slice()[number];
    let Ok(block) = checked_block(front(bytes, table.start), at.block, table.sum) else {
        unreachable!()
    };
    match Walk::new(alloc, at.block.offset, before, block) {
        Ok(walk) => Ok(walk),
        Err(WalkErr::Memory) => Err(Memory),
        Err(_) => unreachable!(),
    }
}

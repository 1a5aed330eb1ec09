//! The index and the data blocks of a table.
ghost use Rattle.std.specs.Prelude.{◌≡◌, ◌≤◌, ◌<◌, ◌∷◌, ◌^◌, ◌-◌, false, ℕ, List, length, nat_le, IfOk, IfErr, IfSome};
ghost use Rattle.std.specs.List.{list_all, AllByRecursion};
ghost use Rattle.std.specs.Prelude.{drop};
ghost use Rattle.rk_bytes.specs.Model.TableStatus.{reader_of, family_name_of};
ghost use Rattle.rk_table.specs.Told.{Tells, value_of};
ghost use Rattle.rk_table.specs.Blocks.{Sees, data_told};
ghost use Rattle.rk_table.specs.Stages.{left_of, after_blocks, separator_before};
ghost use Rattle.rk_table.specs.Steps.{Continues, IsSound, AreBelowTop, IsBefore, steps_left};
ghost use Rattle.rk_table.specs.Data.{index_told, new_table, advanced, closed, AreRangeBounds};

use crate::bounds::{Bounds, bounds_with, top_with};
use crate::fault::damaged;
use crate::head::{index_in, stopped};
use crate::properties::{family, family_name, has_delta_handles, has_user_keys};
use crate::records::{Records, separated_records};
use crate::stage::Stage;
use crate::{IndexEntry, Property, RangeDel, Status, TableRef, TableWhy, WalkErr};
use rk_bytes::model::Footer;
use rk_bytes::{Bytes, Memory, Seq};
use std::alloc::Global;

/// The least length of an internal key in bytes.
const LEAST_KEY_LEN: usize = 8;

/// The stage after the index block.
pub(crate) fn after_index(
    alloc: Global,
    footer: Footer,
    properties: Seq<Property>,
    ranges: Seq<RangeDel>,
    block: &[u8],
) -> Result<Stage, Stage>
    requires { AreBelowTop ranges }
    ensures ok { IfOk result (Continues (Stage.Index footer properties ranges) block.now) }
    ensures sound { IfOk result IsSound }
    ensures lower { IfOk result (λ next. steps_left next < 2 ^ 64) }
    ensures err { IfErr result (λ stage. stage ≡ Stage.Index footer properties ranges) }
{
    let index = match tested_index(alloc, footer.index.offset, properties.as_slice(), block) {
        Ok(index) => index,
        Err(error) => {
            let stage = Stage::Index {
                footer,
                properties,
                ranges,
            };
            return stopped(error, stage);
        }
    };
    let Ok(name) = family_name(alloc, properties.as_slice()) else {
        return Err(Stage::Index {
            footer,
            properties,
            ranges,
        });
    };
    let table = new_table(footer, properties, ranges, index, name);
    with_index(alloc, footer, table)
}

/// What is known of a table before its data blocks.
fn new_table(
    footer: Footer,
    properties: Seq<Property>,
    ranges: Seq<RangeDel>,
    index: Seq<IndexEntry>,
    family_name: Bytes,
) -> TableRef
    requires { family_name ≡ family_name_of properties }
    ensures { result ≡ new_table footer properties ranges index }
{
    let family = family(properties.as_slice());
    let user_keys = has_user_keys(properties.as_slice());
    TableRef {
        family,
        family_name,
        entries: 0,
        ranges,
        properties,
        index,
        user_keys,
        sum: footer.sum,
        smallest: None,
        largest: None,
        top: 0,
        start: footer.start,
    }
}

/// The stage of a table before its first data block.
fn with_index(alloc: Global, footer: Footer, table: TableRef) -> Result<Stage, Stage>
    requires new { table ≡ new_table footer table.properties table.ranges table.index }
    requires top { AreBelowTop table.ranges }
    requires long { table.user_keys ≡ false → AllByRecursion (λ at. 8 ≤ length at.separator) table.index }
    ensures ok { IfOk result (λ next. (bytes : List ℕ) → left_of next bytes ≡ after_blocks (reader_of bytes footer) table 0) }
    ensures sound { IfOk result IsSound }
    ensures lower { IfOk result (λ next. steps_left next < 2 ^ 64) }
    ensures err { IfErr result (λ stage. stage ≡ Stage.Index footer table.properties table.ranges) }
{
    if table.index.as_slice().len() > 0 {
        return Ok(Stage::Data {
            footer,
            table,
            number: 0,
        });
    }
    match bounds_with(alloc, None, None, table.ranges.as_slice()) {
        Ok(bounds) => Ok(Stage::Ended(Status::Good(closed(table, bounds)))),
        Err(_) => Err(Stage::Index {
            footer,
            properties: table.properties,
            ranges: table.ranges,
        }),
    }
}

/// The stage after the data block with this number.
pub(crate) fn after_data(
    alloc: Global,
    footer: Footer,
    table: TableRef,
    number: usize,
    block: &[u8],
) -> Result<Stage, Stage>
    requires { IsBefore table number }
    ensures ok { IfOk result (Continues (Stage.Data footer table number) block.now) }
    ensures sound { IfOk result IsSound }
    ensures lower { IfOk result (λ next. steps_left next < length table.index - number) }
    ensures err { IfErr result (λ stage. stage ≡ Stage.Data footer table number) }
{
    let records = match records_at(alloc, &table, number, block) {
        Ok(records) => records,
        Err(error) => {
            let stage = Stage::Data {
                footer,
                table,
                number,
            };
            return stopped(error, stage);
        }
    };
    if number + 1 < table.index.as_slice().len() {
        return Ok(Stage::Data {
            footer,
            table: advanced(table, records),
            number: number + 1,
        });
    }
    match bounds_after(alloc, &table, &records) {
        Ok(bounds) => {
            let table = closed(advanced(table, records), bounds);
            Ok(Stage::Ended(Status::Good(table)))
        }
        Err(_) => Err(Stage::Data {
            footer,
            table,
            number,
        }),
    }
}

/// Reads the data block with this number of a table.
fn records_at(
    alloc: Global,
    table: &TableRef,
    number: usize,
    block: &[u8],
) -> Result<Records, WalkErr>
    requires { IsBefore table.now number }
    ensures { (at : IndexEntry) (later : List IndexEntry) → drop number table.now.index ≡ at ∷ later → Sees table.now.largest (data_told table.now.user_keys table.now.largest (separator_before number table.now.index) at block.now) result }
{
    let index = table.index.as_slice();
    separated_records(
        alloc,
        &index[number],
        table.user_keys,
        key_of(&table.largest),
        separator_before(number, index),
        block,
    )
}

/// The bounds of a table after the records of its last data block.
fn bounds_after(alloc: Global, table: &TableRef, records: &Records) -> Result<Bounds, Memory>
    requires top { AreBelowTop table.now.ranges }
    requires smallest_long { IfSome table.now.smallest (λ key. 8 ≤ length key) }
    requires first_long { 8 ≤ length records.now.first }
    requires last_long { 8 ≤ length records.now.last }
    ensures { IfOk result (AreRangeBounds (advanced table.now records.now).smallest (advanced table.now records.now).largest table.now.ranges) }
{
    let smallest = match key_of(&table.smallest) {
        Some(key) => key,
        None => records.first.as_slice(),
    };
    let largest = records.last.as_slice();
    bounds_with(
        alloc,
        Some(smallest),
        Some(largest),
        table.ranges.as_slice(),
    )
}

/// What is known of a table after the records of one more data block.
fn advanced(mut table: TableRef, records: Records) -> TableRef
    ensures { result ≡ advanced table records }
{
    let Records {
        entries,
        top,
        first,
        last,
    } = records;
    table.entries = table.entries.saturating_add(entries);
    table.top = table.top.max(top);
    table.smallest = match table.smallest.take() {
        Some(smallest) => Some(smallest),
        None => Some(first),
    };
    table.largest = Some(last);
    table
}

/// What is known of a table with these bounds, after all of its data blocks.
fn closed(mut table: TableRef, bounds: Bounds) -> TableRef
    ensures { result ≡ closed table bounds }
{
    table.top = top_with(table.top, table.ranges.as_slice());
    table.smallest = bounds.smallest;
    table.largest = bounds.largest;
    table
}

/// The key's bytes, if there is one.
fn key_of(key: &Option<Bytes>) -> Option<&[u8]>
    ensures { value_of result ≡ key.now }
{
    match key {
        Some(key) => Some(key.as_slice()),
        None => None,
    }
}

/// The separator of the data block before the one with this number.
pub(crate) fn separator_before(number: usize, index: &[IndexEntry]) -> Option<&[u8]>
    requires { number ≤ length index.now }
    ensures value { value_of result ≡ separator_before number index.now }
    ensures long { AllByRecursion (λ at. 8 ≤ length at.separator) index.now → IfSome result (λ separator. 8 ≤ length separator.now) }
{
    if number == 0 {
        return None;
    }
    Some(index[number - 1].separator.as_slice())
}

/// Reads the index block at this place of a table with these properties. Separators that are internal keys
/// have 8 bytes at least.
fn tested_index(
    alloc: Global,
    place: u64,
    properties: &[Property],
    block: &[u8],
) -> Result<Seq<IndexEntry>, WalkErr>
    ensures { Tells result (index_told place properties.now block.now) }
{
    let index = index_in(alloc, place, has_delta_handles(properties), block)?;
    if has_user_keys(properties) || have_long_separators(index.as_slice()) {
        Ok(index)
    } else {
        Err(damaged(TableWhy::BadKey, place))
    }
}

/// Whether each separator has 8 bytes at least.
fn have_long_separators(index: &[IndexEntry]) -> bool
    ensures { result ≡ list_all (λ entry. nat_le 8 (length entry.separator)) index.now }
{
    for entry in index {
        if entry.separator.as_slice().len() < LEAST_KEY_LEN {
            return false;
        }
    }
    true
}

//! A table's bytes from its parts.
ghost use Rattle.std.specs.Prelude.{◌≡◌, ◌+◌, ◌^◌, ◌<◌, length, IfOk};
ghost use Rattle.rk_bytes.specs.Model.Writers.{last_entry_key};
ghost use Rattle.rk_block.specs.Building.{built_block};
ghost use Rattle.rk_tablew.specs.Writing.{RangesDone, TableDone};

use crate::data::finish_data;
use crate::end::with_end;
use crate::properties::{Sizes, properties_block};
use rk_block::BlockBuilder;
use rk_bytes::{Bytes, Memory};
use std::alloc::Global;

/// The range deletions' block, if there is one.
fn finish_ranges(ranges: BlockBuilder, count: u64) -> Result<Option<Bytes>, Memory>
    ensures { IfOk result (λ block. RangesDone ranges count block) }
{
    if count == 0 {
        return Ok(None);
    }
    let block = ranges.finish()?;
    Ok(Some(block))
}

/// What a table states of itself.
#[derive(Drop)]
pub(crate) struct Stated<'a> {
    pub(crate) family: u32,
    pub(crate) name: &'a [u8],
    pub(crate) record_count: u64,
    pub(crate) range_count: u64,
    pub(crate) sizes: Option<Sizes>,
}

/// The table of closed data blocks, an index, an open data block and range deletions.
pub(crate) fn write_table(
    alloc: Global,
    out: Bytes,
    index: BlockBuilder,
    block: BlockBuilder,
    ranges: BlockBuilder,
    stated: &Stated<'_>,
) -> Result<Bytes, Memory>
    requires index { length (built_block index) + length (last_entry_key block.entries) + 52 < 2 ^ 32 }
    requires name { length stated.now.name.now < 2 ^ 30 }
    requires counts { stated.now.record_count + stated.now.range_count < 2 ^ 64 }
    ensures { IfOk result (λ table. TableDone out index block ranges stated.now.record_count stated.now.range_count stated.now.family stated.now.name.now stated.now.sizes table) }
{
    let data = finish_data(alloc, out, index, block, stated.record_count)?;
    let ranges = finish_ranges(ranges, stated.range_count)?;
    let count = stated.record_count + stated.range_count;
    let properties = properties_block(alloc, stated.family, stated.name, count, stated.sizes)?;
    with_end(
        data.front,
        alloc,
        &ranges,
        properties.as_slice(),
        data.index.as_slice(),
    )
}

//! What stands behind the data blocks of a table.
ghost use Rattle.std.specs.Prelude.{◌≡◌, ◌+◌, ◌<◌, ◌≤◌, length, IfOk, OnOk};
ghost use Rattle.rk_bytes.specs.Model.Writers.{block_bytes, handle_bytes};
ghost use Rattle.rk_block.specs.Building.{built_block, with_entry};
ghost use Rattle.rk_tablew.specs.Parts.{EndsWith, metaindex_entries, range_handle_entries, with_entries};

use crate::stored::{handle_bytes, put_any, put_block, put_footer};
use rk_block::BlockBuilder;
use rk_bytes::model::Handle;
use rk_bytes::{Bytes, Memory};
use std::alloc::Global;

/// Adds the handle of a block with this name.
fn put_named(
    metaindex: &mut BlockBuilder,
    alloc: Global,
    name: &[u8],
    handle: Handle,
) -> Result<(), Memory>
    requires size { length (built_block metaindex.old) < 1000 }
    requires name { length name.now < 1000 }
    ensures added { OnOk result (metaindex.new ≡ with_entry metaindex.old name.now (handle_bytes handle)) }
    ensures grows { OnOk result (length (built_block metaindex.new) ≤ length (built_block metaindex.old) + length name.now + 39) }
{
    let bytes = handle_bytes(alloc, handle)?;
    metaindex.add(name, bytes.as_slice())
}

/// Adds the handle of the range deletions' block, if there is one.
fn put_ranges(
    metaindex: &mut BlockBuilder,
    alloc: Global,
    ranges: Option<Handle>,
) -> Result<(), Memory>
    requires { length (built_block metaindex.old) < 1000 }
    ensures { OnOk result (metaindex.new ≡ with_entries metaindex.old (range_handle_entries ranges)) }
{
    match ranges {
        None => Ok(()),
        Some(handle) => put_named(metaindex, alloc, b"rocksdb.range_del", handle),
    }
}

/// The metaindex block, which says where the properties' block stands, and that of range deletions.
fn metaindex_block(
    alloc: Global,
    properties: Handle,
    ranges: Option<Handle>,
) -> Result<Bytes, Memory>
    ensures { IfOk result (λ block. block ≡ block_bytes 1 (metaindex_entries properties ranges)) }
{
    let mut metaindex = BlockBuilder::new(alloc, 1);
    put_named(&mut metaindex, alloc, b"rocksdb.properties", properties)?;
    put_ranges(&mut metaindex, alloc, ranges)?;
    metaindex.finish()
}

/// The data blocks with all that stands behind them: the range deletions' block if there is one, the
/// properties' block, the metaindex, the index and the footer.
pub(crate) fn with_end(
    data_blocks: Bytes,
    alloc: Global,
    ranges: &Option<Bytes>,
    properties: &[u8],
    index: &[u8],
) -> Result<Bytes, Memory>
    ensures { IfOk result (λ table. EndsWith data_blocks ranges.now properties.now index.now table) }
{
    let mut out = data_blocks;
    let ranges_handle = put_any(&mut out, ranges)?;
    let properties_handle = put_block(&mut out, properties)?;
    let metaindex = metaindex_block(alloc, properties_handle, ranges_handle)?;
    let metaindex_handle = put_block(&mut out, metaindex.as_slice())?;
    let index_handle = put_block(&mut out, index)?;
    put_footer(&mut out, alloc, metaindex_handle, index_handle)?;
    Ok(out)
}

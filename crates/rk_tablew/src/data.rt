//! The data blocks of a table, and its index.
ghost use Rattle.std.specs.Prelude.{◌≡◌, ◌+◌, ◌^◌, ◌<◌, ◌≤◌, List, length, IfOk, OnOk};
ghost use Rattle.rk_bytes.specs.Model.Writers.{KeyValue, last_entry_key};
ghost use Rattle.rk_block.specs.Building.{built_block};
ghost use Rattle.rk_tablew.specs.Data.{Closes, DataEnds, EntryPut, IsClosed, IsData, RoomMade, is_closed_next};

use crate::stored::{handle_bytes, put_block};
use rk_block::BlockBuilder;
use rk_bytes::model::Handle;
use rk_bytes::{Bytes, Memory};
use std::alloc::Global;
use std::mem;

/// At how many entries each a data block has a restart.
pub(crate) const RESTART_EVERY: u32 = 16;

/// A data block is closed once it has so many bytes.
const BLOCK_LEN: usize = 4096;

/// Closes a data block: its bytes are put at the end, and its last key and its handle into the index.
/// Where memory runs out, some of that may be done.
fn close(
    out: &mut Bytes,
    index: &mut BlockBuilder,
    alloc: Global,
    block: BlockBuilder,
) -> Result<(), Memory>
    requires { length (built_block index.old) + length (last_entry_key block.entries) + 52 < 2 ^ 32 }
    ensures { OnOk result (Closes out.old index.old block out.new index.new) }
{
    let handle = Handle {
        offset: out.as_slice().len() as u64,
        size: block.size() as u64,
    };
    let bytes = handle_bytes(alloc, handle)?;
    index.add(block.last_key(), bytes.as_slice())?;
    let block = block.finish()?;
    put_block(out, block.as_slice())?;
    Ok(())
}

/// Closes the open data block if it is full.
fn make_room(
    out: &mut Bytes,
    index: &mut BlockBuilder,
    block: &mut BlockBuilder,
    alloc: Global,
) -> Result<(), Memory>
    requires { length (built_block index.old) + length (last_entry_key block.old.entries) + 52 < 2 ^ 32 }
    ensures room { OnOk result (RoomMade (is_closed_next block.old) out.old index.old block.old out.new index.new block.new) }
    ensures small { OnOk result (length (built_block block.new) < 4096) }
{
    if block.size() < BLOCK_LEN {
        return Ok(());
    }
    let full = mem::replace(block, BlockBuilder::new(alloc, RESTART_EVERY));
    close(out, index, alloc, full)
}

/// Puts an entry into the open data block, which is closed before that if it is full. Where memory runs
/// out, some of that may be done.
pub(crate) fn put_entry(
    out: &mut Bytes,
    index: &mut BlockBuilder,
    block: &mut BlockBuilder,
    alloc: Global,
    key: &[u8],
    value: &[u8],
) -> Result<(), Memory>
    requires index { length (built_block index.old) + length (last_entry_key block.old.entries) + 52 < 2 ^ 32 }
    requires entry { length key.now + length value.now + 5000 < 2 ^ 32 }
    ensures { OnOk result (EntryPut out.old index.old block.old key.now value.now out.new index.new block.new) }
{
    make_room(out, index, block, alloc)?;
    block.add(key, value)
}

/// The bytes of all data blocks, and the index block.
#[derive(Drop)]
pub(crate) struct DataParts {
    pub(crate) front: Bytes,
    pub(crate) index: Bytes,
}

/// Closes the open data block, if so many entries are some, and the index.
pub(crate) fn finish_data(
    alloc: Global,
    out: Bytes,
    index: BlockBuilder,
    block: BlockBuilder,
    count: u64,
) -> Result<DataParts, Memory>
    requires { length (built_block index) + length (last_entry_key block.entries) + 52 < 2 ^ 32 }
    ensures { IfOk result (λ parts. (entries : List KeyValue) → IsData entries out index block → count ≡ length entries → DataEnds entries parts.front parts.index) }
{
    if count == 0 {
        let index = index.finish()?;
        return Ok(DataParts { front: out, index });
    }
    close_last(alloc, out, index, block)
}

/// Closes the open data block and the index.
fn close_last(
    alloc: Global,
    out: Bytes,
    index: BlockBuilder,
    block: BlockBuilder,
) -> Result<DataParts, Memory>
    requires { length (built_block index) + length (last_entry_key block.entries) + 52 < 2 ^ 32 }
    ensures { IfOk result (λ parts. IsClosed out index block parts.front parts.index) }
{
    let mut out = out;
    let mut index = index;
    close(&mut out, &mut index, alloc, block)?;
    let index = index.finish()?;
    Ok(DataParts { front: out, index })
}

ghost use Rattle.std.specs.Prelude.{◌≡◌, ◌⊎◌, ◌∷◌, ◌++◌, [], Err, OnOk, OnErr, IsErrOf};
ghost use Rattle.rk_bytes.specs.Model.BlockEntries.{collected, handle_at, whole, index_entries};
ghost use Rattle.rk_meta.specs.Walk.{whole_entry};

use crate::delta::read_delta_index;
use crate::walk::next_value;
use crate::{Handle, IndexEntry, IndexFault, read_handle};
use rk_block::{BlockView, Entries, KeyBuf};
use rk_bytes::{Bytes, Cursor, Seq};
use std::alloc::Global;

/// Reads an index block, whose handles are whole or, with `delta`, delta-encoded; a metaindex block is one
/// with whole handles, whose keys are names. A fault of the block comes before one of a whole handle, and with
/// `delta` a handle's fault comes at its entry. `Memory` comes only where memory runs out.
pub fn read_index(alloc: Global, block: &[u8], delta: bool) -> Result<Seq<IndexEntry>, IndexFault>
    ensures { (result ≡ index_entries delta block.now) ⊎ (result ≡ Err IndexFault.Memory) }
{
    if delta {
        return read_delta_index(alloc, block);
    }
    match BlockView::read(block) {
        Ok(view) => whole_index(alloc, view.entries()),
        Err(fault) => Err(IndexFault::Block(fault)),
    }
}

/// The index that the entries are, each with a whole handle, or the first fault.
fn whole_index(alloc: Global, mut entries: Entries<'_>) -> Result<Seq<IndexEntry>, IndexFault>
    requires { entries.key ≡ [] }
    ensures { (result ≡ collected whole_entry entries.entry.left) ⊎ (result ≡ Err IndexFault.Memory) }
{
    let mut key = KeyBuf::new(alloc);
    let mut index = Seq::new(alloc);
    loop {
        match next_value(&mut entries, &mut key) {
            Ok(Some(value)) => {
                let Some(block) = whole_handle(value) else {
                    return Err(IndexFault::BadHandle);
                };
                push_entry(alloc, &mut index, key.as_slice(), block)?;
            }
            Ok(None) => return Ok(index),
            Err(_) => return Err(IndexFault::Memory),
        }
    }
}

/// The handle that the bytes are, where nothing follows it.
fn whole_handle(bytes: &[u8]) -> Option<Handle>
    ensures { result ≡ whole (handle_at bytes.now) }
{
    let mut cursor = Cursor::new(bytes);
    match read_handle(&mut cursor) {
        Ok(handle) if cursor.rest().is_empty() => Some(handle),
        _ => None,
    }
}

/// Puts an entry at the end. Only memory can be wanting.
pub(crate) fn push_entry(
    alloc: Global,
    index: &mut Seq<IndexEntry>,
    separator: &[u8],
    block: Handle,
) -> Result<(), IndexFault>
    ensures ok { OnOk result (index.new ≡ index.old ++ (record { separator = separator.now; block = block }) ∷ []) }
    ensures err { OnErr result (IsErrOf result IndexFault.Memory) }
{
    let Ok(separator) = Bytes::copy_of(alloc, separator) else {
        return Err(IndexFault::Memory);
    };
    match index.push(IndexEntry { separator, block }) {
        Ok(()) => Ok(()),
        Err(_) => Err(IndexFault::Memory),
    }
}

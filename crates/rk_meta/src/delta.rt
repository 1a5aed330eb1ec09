//! An index whose handles are delta-encoded: beside keys that share bytes, its entries have no lengths of
//! values, and a handle after a shared key is written as the difference of the sizes (RocksDB's
//! table/format.cc, `IndexValue`).
ghost use Rattle.std.specs.Prelude.{◌≡◌, ◌⊎◌, ◌+◌, ◌<◌, ◌≤◌, ◌+ℤ◌, pos, length, true, ok_or, Err, OnOk};
ghost use Rattle.rk_bytes.specs.Model.Numbers.{from_zigzag};
ghost use Rattle.rk_bytes.specs.Model.BlockEntries.{delta_value_at, fitting_handle, index_entries};
ghost use Rattle.rk_bytes.specs.Reading.{IsFurther, rest_of, read_by};
ghost use Rattle.rk_block.specs.Restarts.{restarts_of};
ghost use Rattle.rk_meta.specs.Delta.{key_read, delta_key, raw_read, delta_parts_at, delta_index_in, fitting_size};

use crate::index::push_entry;
use crate::trailer::TRAILER_LEN;
use crate::{Handle, IndexEntry, IndexFault, read_handle};
use rk_block::{BlockFault, KeyBuf, RawEntry, Restarts, block_parts};
use rk_bytes::{Cursor, NumFault, Seq};
use std::alloc::Global;

/// Reads an index block whose handles are delta-encoded.
pub(crate) fn read_delta_index(alloc: Global, block: &[u8]) -> Result<Seq<IndexEntry>, IndexFault>
    ensures { (result ≡ index_entries true block.now) ⊎ (result ≡ Err IndexFault.Memory) }
{
    match block_parts(block) {
        Ok(parts) => delta_index(alloc, parts.entries, parts.restarts),
        Err(fault) => Err(IndexFault::Block(fault)),
    }
}

/// The index in the parts of a block, or the first fault.
fn delta_index(
    alloc: Global,
    entries: &[u8],
    mut restarts: Restarts<'_>,
) -> Result<Seq<IndexEntry>, IndexFault>
    requires { restarts ≡ restarts_of restarts.left }
    ensures { (result ≡ delta_index_in entries.now restarts.entry.left) ⊎ (result ≡ Err IndexFault.Memory) }
{
    let mut cursor = Cursor::new(entries);
    let mut key = KeyBuf::new(alloc);
    let mut before = Handle { offset: 0, size: 0 };
    let mut index = Seq::new(alloc);
    while !cursor.rest().is_empty() {
        let place = cursor.place();
        let shared = next_key(&mut cursor, &mut key)?;
        let Ok(handle) = next_handle(&mut cursor, shared, before) else {
            return Err(IndexFault::BadHandle);
        };
        restarts.pass(place, shared);
        push_entry(alloc, &mut index, key.as_slice(), handle)?;
        before = handle;
    }
    if restarts.are_met(!entries.is_empty()) {
        Ok(index)
    } else {
        Err(IndexFault::Block(BlockFault::BadRestarts))
    }
}

/// Goes from the key before the entry that comes next to the entry's key, and says how many bytes they share.
fn next_key(cursor: &mut Cursor<'_>, key: &mut KeyBuf) -> Result<usize, IndexFault>
    ensures key { (key_read result key.new cursor.new ≡ delta_key cursor.old.place key.old (rest_of cursor.old)) ⊎ (result ≡ Err IndexFault.Memory) }
    ensures after { IsFurther cursor.old cursor.new }
    ensures shorter { OnOk result (length (rest_of cursor.new) < length (rest_of cursor.old)) }
{
    let place = cursor.place() as u64;
    let entry = match read_key_parts(cursor) {
        Ok(entry) if entry.shared <= key.as_slice().len() => entry,
        _ => return Err(IndexFault::Block(BlockFault::BadEntry(place))),
    };
    match key.step(&entry) {
        Ok(()) => Ok(entry.shared),
        Err(_) => Err(IndexFault::Memory),
    }
}

/// What the key of the entry that comes next is made of.
fn read_key_parts<'a>(cursor: &mut Cursor<'a>) -> Result<RawEntry<'a>, NumFault>
    ensures parts { raw_read result cursor.new ≡ delta_parts_at (rest_of cursor.old) }
    ensures after { IsFurther cursor.old cursor.new }
{
    let shared = cursor.varint32()? as usize;
    let rest = cursor.prefixed()?;
    Ok(RawEntry {
        shared,
        rest,
        value: &[],
    })
}

/// The handle that comes next: whole where the key shares nothing, else by what the size is larger.
fn next_handle(cursor: &mut Cursor<'_>, shared: usize, before: Handle) -> Result<Handle, NumFault>
    ensures value { read_by result cursor.new ≡ delta_value_at shared before (rest_of cursor.old) }
    ensures after { IsFurther cursor.old cursor.new }
    ensures shorter { OnOk result (length (rest_of cursor.new) ≤ length (rest_of cursor.old)) }
{
    if shared == 0 {
        return read_handle(cursor);
    }
    let difference = cursor.varint64()?;
    handle_after(before, difference).ok_or(NumFault::TooLarge)
}

/// The handle of the block right after another one's trailer, whose size is larger by this zigzag number, or
/// `None` where one of its numbers doesn't fit.
fn handle_after(before: Handle, zigzag: u64) -> Option<Handle>
    ensures { ok_or result NumFault.TooLarge ≡ fitting_handle (before.offset + before.size + 5) (pos before.size +ℤ from_zigzag zigzag) }
{
    let offset = before.offset.checked_add(before.size)?;
    let offset = offset.checked_add(TRAILER_LEN as u64)?;
    let size = size_after(before.size, zigzag)?;
    Some(Handle { offset, size })
}

/// The size that is larger by this zigzag number, where it fits.
fn size_after(size: u64, zigzag: u64) -> Option<u64>
    ensures { result ≡ fitting_size (pos size +ℤ from_zigzag zigzag) }
{
    let half = zigzag / 2;
    if zigzag % 2 == 0 {
        size.checked_add(half)
    } else {
        size.checked_sub(half + 1)
    }
}

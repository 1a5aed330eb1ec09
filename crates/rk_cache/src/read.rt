//! A block that isn't kept, read from the disk.
ghost use Rattle.std.specs.Prelude.{◌≡◌, false, ◌+◌, ◌^◌, ◌<◌, ◌≤◌, ◌++◌, [], length, IfOk, IfSome, IfNone, unwrap_or};
ghost use Rattle.std.specs.FinMap.{get};
ghost use Rattle.rk_bytes.specs.Model.DiskImages.{IsLeft, contents_told, part_of_file, Counts};
ghost use Rattle.rk_bytes.specs.Model.TableFooter.{checked_block};
ghost use Rattle.rk_disk.specs.Faults.{disk_failed};
ghost use Rattle.rk_cache.specs.Faults.{disk_failed as block_failed};
ghost use Rattle.rk_cache.specs.Answers.{block_in, Gives};

use crate::key::BlockKey;
use crate::{CacheFault, Handle, SumKind, TrailerFault};
use rk_bytes::Bytes;
use rk_disk::{Disk, DiskErr, read_piece};
use rk_meta::checked_block;
use rk_names::{FileName, write_name};
use std::alloc::Global;

/// How many bytes are asked for at once at most.
const PIECE_LEN: usize = 32_768;

/// How many bytes follow a block: its type and its checksum.
const TRAILER_LEN: u64 = 5;

/// Reads the block of this key. The vector that it is read into is the block's own.
pub(crate) fn read_block<D: Disk>(
    alloc: Global,
    disk: &mut D,
    key: BlockKey,
) -> Result<Bytes, CacheFault>
    ensures answer { IfSome (contents_told (D.told disk.old)) (λ files. Gives (λ block. block) (block_in files key.number key.size key.handle key.sum) result) }
    ensures left { IsLeft (D.told disk.old) (D.told disk.new) }
    ensures faults { Counts (block_failed result) (D.faults disk.old) (D.faults disk.new) }
{
    let Some(len) = stored_len(key.handle, key.size) else {
        return Err(CacheFault::Trailer(TrailerFault::OutOfFile));
    };
    let name = write_name(alloc, &FileName::Table(key.number))?;
    let stored = read_part(alloc, disk, name.as_str(), key.handle.offset, len)?;
    without_trailer(stored, key.handle.size, key.sum)
}

/// How many bytes a handle's block has with its trailer, where both are within the first `size` bytes.
fn stored_len(handle: Handle, size: u64) -> Option<usize>
    ensures none { IfNone result (size < handle.offset + handle.size + TRAILER_LEN) }
    ensures some { IfSome result (λ len. (len ≡ handle.size + TRAILER_LEN) × (handle.offset + len ≤ size) × (handle.offset + len < 2 ^ 64)) }
{
    let len = handle.size.checked_add(TRAILER_LEN)?;
    let end = handle.offset.checked_add(len)?;
    if end <= size {
        Some(len as usize)
    } else {
        None
    }
}

/// The block of this length that these bytes begin with, where its trailer follows it and its tests pass.
fn without_trailer(mut stored: Vec<u8>, block_len: u64, sum: SumKind) -> Result<Bytes, CacheFault>
    ensures answer { Gives (λ block. block) (checked_block stored.items (record { offset = 0; size = block_len }) sum) result }
    ensures disk { block_failed result ≡ false }
{
    let handle = Handle {
        offset: 0,
        size: block_len,
    };
    if let Err(fault) = checked_block(stored.as_slice(), handle, sum) {
        return Err(CacheFault::Trailer(fault));
    }
    stored.truncate(block_len as usize);
    Ok(Bytes::from_vec(stored))
}

/// At most `len` bytes of a file from `at` on: fewer where the file ends before.
///
/// It reads pieces into the room behind what it has read, so that it takes no memory for bytes that the file
/// hasn't.
fn read_part<D: Disk>(
    alloc: Global,
    disk: &mut D,
    name: &str,
    at: u64,
    len: usize,
) -> Result<Vec<u8>, DiskErr>
    requires { at + len < 2 ^ 64 }
    ensures part { IfOk result (λ bytes. IfSome (contents_told (D.told disk.old)) (λ files. bytes.items ≡ part_of_file at len (unwrap_or (get files name.now) []))) }
    ensures left { IsLeft (D.told disk.old) (D.told disk.new) }
    ensures faults { Counts (disk_failed result) (D.faults disk.old) (D.faults disk.new) }
{
    let mut bytes = Vec::new(alloc);
    while bytes.len() < len {
        let wanted = PIECE_LEN.min(len - bytes.len());
        if read_behind(disk, name, at, &mut bytes, wanted)? < wanted {
            break;
        }
    }
    Ok(bytes)
}

/// Reads at most `wanted` more bytes of a file behind those that were read of it from `at` on, and says how
/// many these are: fewer where the file ends.
fn read_behind<D: Disk>(
    disk: &mut D,
    name: &str,
    at: u64,
    bytes: &mut Vec<u8>,
    wanted: usize,
) -> Result<usize, DiskErr>
    requires { at + (length bytes.old.items + wanted) < 2 ^ 64 }
    ensures within { IfOk result (λ n. n ≤ wanted) }
    ensures len { IfOk result (λ n. length bytes.new.items ≡ length bytes.old.items + n) }
    ensures part { IfOk result (λ n. IfSome (contents_told (D.told disk.old)) (λ files.
        let part = part_of_file (at + length bytes.old.items) wanted (unwrap_or (get files name.now) []) in
        (n ≡ length part) × (bytes.new.items ≡ bytes.old.items ++ part))) }
    ensures left { IsLeft (D.told disk.old) (D.told disk.new) }
    ensures faults { Counts (disk_failed result) (D.faults disk.old) (D.faults disk.new) }
{
    let filled = bytes.len();
    bytes.resize(filled + wanted, 0)?;
    let got = read_piece(disk, name, at + filled as u64, &mut bytes[filled..])?;
    bytes.truncate(filled + got);
    Ok(got)
}

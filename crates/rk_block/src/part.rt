//! The parts of a block, and the tests of them.
ghost use Rattle.std.specs.Prelude.{◌≡◌, IfOk};
ghost use Rattle.rk_bytes.specs.Model.BlockEntries.{block_parts};
ghost use Rattle.rk_block.specs.Parts.{parts_read, restarts_in};
ghost use Rattle.rk_block.specs.Restarts.{restarts_of};

use crate::BlockFault;
use crate::entry::read_entry;
use crate::restarts::{OFFSET_LEN, Restarts, fixed32};

/// How many bytes the count of restart offsets has.
const COUNT_LEN: usize = 4;

/// The bit of the count that says that a hash index stands before it.
const HASH_INDEX: u32 = 1 << 31;

/// The parts of a block, whichever form its entries have.
#[derive(Debug, Drop)]
pub struct BlockParts<'a> {
    /// The bytes that the entries fill.
    pub entries: &'a [u8],
    pub restarts: Restarts<'a>,
}

/// Parts a block by the count at its end. `Short` comes where the block has fewer bytes than that count,
/// `HashIndex` where the count says that there is such an index, and `BadRestarts` where it is 0 or the
/// offsets don't fit before it. Takes no memory.
pub fn block_parts(block: &[u8]) -> Result<BlockParts<'_>, BlockFault>
    ensures parts { parts_read result ≡ block_parts block.now }
    ensures restarts { IfOk result (λ parts. parts.restarts ≡ restarts_of parts.restarts.left) }
{
    if block.len() < COUNT_LEN {
        return Err(BlockFault::Short);
    }
    let offsets_end = block.len() - COUNT_LEN;
    let count = fixed32(&block[offsets_end..]);
    if count >= HASH_INDEX {
        return Err(BlockFault::HashIndex);
    }
    let offsets_len = count as usize * OFFSET_LEN;
    if count == 0 || offsets_end < offsets_len {
        return Err(BlockFault::BadRestarts);
    }
    let entries_end = offsets_end - offsets_len;
    Ok(BlockParts {
        entries: &block[..entries_end],
        restarts: Restarts::new(&block[entries_end..offsets_end]),
    })
}

/// Whether the restart offsets are right for the entries, or the first entry that doesn't read.
pub(crate) fn has_right_restarts(
    entries: &[u8],
    mut restarts: Restarts<'_>,
) -> Result<bool, BlockFault>
    requires { restarts ≡ restarts_of restarts.left }
    ensures { result ≡ restarts_in entries.now restarts.entry.left }
{
    let mut place = 0;
    let mut key_len = 0;
    while place < entries.len() {
        let Ok((entry, len)) = read_entry(&entries[place..]) else {
            return Err(BlockFault::BadEntry(place as u64));
        };
        if entry.shared > key_len {
            return Err(BlockFault::BadEntry(place as u64));
        }
        restarts.pass(place, entry.shared);
        key_len = entry.shared + entry.rest.len();
        place += len;
    }
    Ok(restarts.are_met(!entries.is_empty()))
}

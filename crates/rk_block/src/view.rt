ghost use Rattle.std.specs.Prelude.{◌≡◌, ◌≤◌, ◌∷◌, [], length, IfSome, IfNone};
ghost use Rattle.rk_bytes.specs.Model.BlockEntries.{block_entries};
ghost use Rattle.rk_block.specs.Seen.{seen_whole};
ghost use Rattle.rk_block.specs.Raw.{entry_of, key_after};

use crate::entry::read_entry;
use crate::part::{BlockParts, block_parts, has_right_restarts};
use crate::{BlockFault, RawEntry};
use std::marker::Model;

/// A block that reads. Contracts see its entries, with whole keys.
#[derive(Debug, Drop)]
pub struct BlockView<'a> {
    /// The part of the block that its entries fill.
    part: &'a [u8],
}

impl<'a> Model for BlockView<'a> {
    ghost use Rattle.std.specs.Prelude.{List, ℕ};
    ghost use Rattle.rk_bytes.specs.Model.BlockEntries.{Entry};
    ghost use Rattle.rk_block.specs.Seen.{entries_or_none};
    ghost use Rattle.rk_block.specs.Parts.{entries_in};
    ghost use Rattle.rk_block.specs.Read.{IsReadBlock};

    ghost Value = { List (Entry (List ℕ)) };

    ghost view = { λ v. entries_or_none (entries_in v.part.now) };

    ghost invariant = { λ v. IsReadBlock v.part.now };
}

impl<'a> BlockView<'a> {
    /// Tests the whole block, or gives the first fault: `Short` where it has fewer bytes than the count
    /// at its end, `HashIndex` where that count says that it has such an index, `BadRestarts` where
    /// there is no restart offset or they don't fit, `BadEntry` at an entry that passes the part of the
    /// entries or shares more than the key before has, and last `BadRestarts` where the offsets don't
    /// rise from 0 or one isn't where an entry begins that shares nothing. Takes no memory.
    pub fn read(bytes: &'a [u8]) -> Result<BlockView<'a>, BlockFault>
        ensures { result ≡ block_entries bytes.now }
    {
        let BlockParts { entries, restarts } = block_parts(bytes)?;
        if has_right_restarts(entries, restarts)? {
            Ok(BlockView { part: entries })
        } else {
            Err(BlockFault::BadRestarts)
        }
    }

    /// All entries, to be handed out from the first on. Takes no memory.
    pub fn entries(&self) -> Entries<'a>
        ensures { result ≡ seen_whole self.now }
    {
        Entries {
            part: self.part,
            place: 0,
        }
    }
}

/// The entries of a block that weren't handed out yet. Contracts see them with whole keys, beside the
/// place of the first of them and the key before it.
#[derive(Debug, Drop)]
pub struct Entries<'a> {
    /// The part of the block that all its entries fill.
    part: &'a [u8],
    /// Where the next entry begins.
    place: usize,
}

impl<'a> Model for Entries<'a> {
    ghost use Rattle.rk_block.specs.Seen.{EntriesSeen, entries_or_none, seen_from};
    ghost use Rattle.rk_block.specs.Parts.{entries_in};
    ghost use Rattle.rk_block.specs.Read.{IsReadTo};

    ghost Value = { EntriesSeen };

    ghost view = { λ e. seen_from e.place (entries_or_none (entries_in e.part.now)) };

    ghost invariant = { λ e. IsReadTo e.part.now e.place };
}

impl<'a> Entries<'a> {
    /// The next entry, or `None` where none is left. Takes no memory.
    pub fn next_entry(&mut self) -> Option<RawEntry<'a>>
        ensures entry { IfSome result (λ raw. self.old.left ≡ entry_of self.old.place self.old.key raw ∷ self.new.left) }
        ensures key { IfSome result (λ raw. self.new.key ≡ key_after self.old.key raw) }
        ensures shared { IfSome result (λ raw. raw.shared ≤ length self.old.key) }
        ensures none { IfNone result (self.old.left ≡ []) }
        ensures ended { IfNone result (self.new ≡ self.old) }
    {
        let left = &self.part[self.place..];
        if left.is_empty() {
            return None;
        }
        match read_entry(left) {
            Ok((entry, len)) => {
                self.place += len;
                Some(entry)
            }
            Err(_) => unreachable!(),
        }
    }
}

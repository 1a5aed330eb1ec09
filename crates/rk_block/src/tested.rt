//! The entries of a block, each tested when its turn comes.
ghost use Rattle.std.specs.Prelude.{◌≡◌, Err, IfOk, IfErr};
ghost use Rattle.rk_bytes.specs.Model.BlockEntries.{block_entries};
ghost use Rattle.rk_block.specs.Tested.{IsBegun, GivesEntry, Passes};

use crate::entry::read_entry;
use crate::part::{BlockParts, block_parts};
use crate::restarts::Restarts;
use crate::{BlockFault, RawEntry};
use std::marker::Model;

/// The entries of a block that weren't handed out yet, in one walk with their tests. Contracts see the place of the
/// next entry, the key before it and how long that is, how many bytes are left, and the entries that are left, or
/// the block's first fault.
#[derive(Debug, Drop)]
pub struct TestedEntries<'a> {
    /// The part of the block that its entries fill.
    part: &'a [u8],
    /// Where the next entry begins.
    place: usize,
    /// How long the key before it is.
    key_len: usize,
    /// The restart offsets of the block.
    all: Restarts<'a>,
    /// Those at which no entry was passed yet.
    restarts: Restarts<'a>,
}

impl<'a> Model for TestedEntries<'a> {
    ghost use Rattle.rk_block.specs.Tested.{TestedSeen, tested_from};
    ghost use Rattle.rk_block.specs.Walked.{IsWalked};

    ghost Value = { TestedSeen };

    ghost view = { λ e. tested_from e.part.now e.all.left e.place e.key_len };

    ghost invariant = { λ e. IsWalked e.part.now e.all.left e.place e.key_len e.restarts };
}

impl<'a> TestedEntries<'a> {
    /// All entries of a block, to be handed out from the first on. `Short` comes where the block has fewer bytes
    /// than the count at its end, `HashIndex` where that count says that it has such an index, and `BadRestarts`
    /// where there is no restart offset or they don't fit. Takes no memory.
    pub fn new(block: &'a [u8]) -> Result<TestedEntries<'a>, BlockFault>
        ensures begun { IfOk result (λ entries. IsBegun entries block.now) }
        ensures fault { IfErr result (λ fault. block_entries block.now ≡ Err fault) }
    {
        let BlockParts { entries, restarts } = block_parts(block)?;
        Ok(TestedEntries {
            part: entries,
            place: 0,
            key_len: 0,
            all: restarts.again(),
            restarts,
        })
    }

    /// The next entry, or `None` where none is left and the block reads. `BadEntry` comes where the entry passes
    /// the part of the entries or shares more than the key before has, and after the last entry `BadRestarts`
    /// where the restart offsets don't rise from 0 or one isn't where an entry begins that shares nothing. Takes
    /// no memory.
    pub fn next_entry(&mut self) -> Result<Option<RawEntry<'a>>, BlockFault>
        ensures { GivesEntry self.old result self.new }
    {
        let left = &self.part[self.place..];
        if left.is_empty() {
            return if self.restarts.are_met(!self.part.is_empty()) {
                Ok(None)
            } else {
                Err(BlockFault::BadRestarts)
            };
        }
        let Ok((entry, len)) = read_entry(left) else {
            return Err(BlockFault::BadEntry(self.place as u64));
        };
        if entry.shared > self.key_len {
            return Err(BlockFault::BadEntry(self.place as u64));
        }
        self.restarts.pass(self.place, entry.shared);
        self.key_len = entry.shared + entry.rest.len();
        self.place += len;
        Ok(Some(entry))
    }

    /// Tests all entries that are left, and gives the first fault. Takes no memory.
    pub fn test_rest(&mut self) -> Result<(), BlockFault>
        ensures { Passes self.old.left result }
    {
        'rest: while let Some(_) = self.next_entry()? {}
        Ok(())
    }
}

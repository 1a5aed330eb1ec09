ghost use Rattle.std.specs.Prelude.{◌≡◌, ◌≢◌, ℕ, [], List, Some, Ok, OnOk, OnErr, IfOk, IfErr, IfSome, IsOk, Err};
ghost use Rattle.std.specs.NonZero.{non_zero_usize_get};
ghost use Rattle.rk_bytes.specs.Model.DiskImages.{IsLeft, contents_told, Counts};
ghost use Rattle.rk_bytes.specs.Reading.{slice_read};
ghost use Rattle.rk_cache.specs.Answers.{block_in, HoldsFor, Gives, IsGiven};
ghost use Rattle.rk_cache.specs.Faults.{disk_failed};
ghost use Rattle.rk_cache.specs.Kept.{block_of, after_giving, newest};

use crate::key::BlockKey;
use crate::read::read_block;
use crate::{CacheFault, Handle, SumKind};
use lru::LruCache;
use rk_bytes::{Bytes, Memory};
use rk_disk::Disk;
use std::alloc::Global;
use std::marker::Model;
use std::num::NonZeroUsize;

/// Blocks of tables that were read, of which the least recently used make room for others. Contracts see how
/// many there may be, and those that are kept, the most recently used first.
#[derive(Drop)]
pub struct BlockCache {
    pub(crate) alloc: Global,
    by_key: LruCache<BlockKey, Bytes>,
}

impl Model for BlockCache {
    ghost use Rattle.std.specs.Prelude.{map};
    ghost use Rattle.rk_cache.specs.Kept.{CacheSeen, kept_of};

    ghost Value = { CacheSeen };

    ghost view = { λ c. record { capacity = c.by_key.cap; kept = map kept_of c.by_key.entries } };
}

impl BlockCache {
    ghost use Rattle.std.specs.Borrow.{sem};
    ghost use Rattle.rk_cache.specs.Ends.{EndsAfter};

    /// No block, and room for so many. Takes memory for blocks only as they come.
    pub fn new(alloc: Global, blocks: NonZeroUsize) -> Result<BlockCache, Memory>
        ensures { IfOk result (λ cache. cache ≡ record { capacity = non_zero_usize_get blocks; kept = [] }) }
    {
        Ok(BlockCache {
            alloc,
            by_key: LruCache::sparse(alloc, blocks)?,
        })
    }

    /// The block of a handle in the first `size` bytes of the table with this number, or in all where there are
    /// fewer, as the tests of its trailer give it. A block that is kept is given with no call of the disk and
    /// without taking memory. Any other is read and then kept, in the place of the least recently used where
    /// there is no room.
    ///
    /// `Trailer` comes where the block doesn't pass the tests, `Disk` where the disk fails, and `Memory` only
    /// where memory runs out. After each of these the same blocks are kept, in the same order.
    pub fn read_block<D: Disk>(
        &mut self,
        disk: &mut D,
        number: u64,
        size: u64,
        handle: Handle,
        sum: SumKind,
    ) -> Result<&[u8], CacheFault>
        requires { IfSome (contents_told (D.told disk.old)) (HoldsFor self.old.kept) }
        ensures* cache { sem 𝓛 (EndsAfter self.entry number size handle sum result (contents_told (D.told disk.old))) }
        ensures answer { IfSome (contents_told (D.told disk.old)) (λ files. Gives (λ block. block.now) (block_in files number size handle sum) result) }
        ensures kept { (block : List ℕ) → block_of number size handle sum self.old.kept ≡ Some block → (slice_read result ≡ Ok block) × (disk.new ≡ disk.old) }
        ensures left { IsLeft (D.told disk.old) (D.told disk.new) }
        ensures faults { Counts (disk_failed result) (D.faults disk.old) (D.faults disk.new) }
    {
        let key = BlockKey {
            number,
            size,
            handle,
            sum,
        };
        self.keep_block(disk, key)?;
        Ok(self.newest())
    }

    /// Brings the block of this key to the front of those that are kept, and reads it where it isn't kept.
    fn keep_block<D: Disk>(&mut self, disk: &mut D, key: BlockKey) -> Result<(), CacheFault>
        requires { IfSome (contents_told (D.told disk.old)) (HoldsFor self.old.kept) }
        ensures ok { OnOk result (IsGiven self.old key (contents_told (D.told disk.old)) self.new) }
        ensures err { OnErr result (self.new ≡ self.old) }
        ensures fault { IfSome (contents_told (D.told disk.old)) (λ files. OnErr result (Gives (λ _. []) (block_in files key.number key.size key.handle key.sum) result)) }
        ensures kept { (block : List ℕ) → block_of key.number key.size key.handle key.sum self.old.kept ≡ Some block → IsOk result × (disk.new ≡ disk.old) × (newest self.new.kept ≡ Some block) }
        ensures left { IsLeft (D.told disk.old) (D.told disk.new) }
        ensures faults { Counts (disk_failed result) (D.faults disk.old) (D.faults disk.new) }
    {
        if self.by_key.promote(&key) {
            return Ok(());
        }
        let block = read_block(self.alloc, disk, key)?;
        match self.by_key.put(key, block) {
            Ok(_) => Ok(()),
            Err(_) => Err(CacheFault::Memory),
        }
    }

    /// The block that was used last.
    fn newest(&self) -> &[u8]
        requires { self.now.kept ≢ [] }
        ensures { newest self.now.kept ≡ Some result.now }
    {
        match self.by_key.peek_mru() {
            Some((_, block)) => block.as_slice(),
            None => unreachable!(),
        }
    }
}

ghost use Rattle.std.specs.Prelude.{◌≡◌, Ok};
ghost use Rattle.rk_manifest.specs.declared.reading.Reading.TheVariants as read;
ghost use Rattle.rk_manifest.specs.Room.{HasRoom};

use crate::block::take_block;
use crate::progress::Progress;
use crate::reading::Reading;
use crate::{ManifestErr, Version};
use rk_bytes::Memory;
use rk_log::{BLOCK_LEN, LogFeed};
use std::alloc::Global;

/// Finds the last version of a manifest that is handed in block by block. It holds the version so far, the
/// edits of one unfinished group and one unfinished record, and nothing else of the file.
#[derive(Debug, Drop)]
pub struct ManifestFold {
    feed: LogFeed,
    progress: Progress,
    /// Whether reading goes on, or memory ran out.
    reading: Result<Reading, Memory>,
    ghost room: { reading ≡ Ok read.GoesOn → HasRoom feed progress.applied.count },
}

impl ManifestFold {
    ghost use Rattle.std.specs.Prelude.{◌≡◌, ◌+◌, ◌<◌, ◌≤◌, ◌^◌, ◌++◌, ℕ, List, [], false, true, length, IfOk};
    ghost use Rattle.rk_bytes.specs.Model.Manifest.{manifest_units, last_version};
    ghost use Rattle.rk_manifest.specs.Last.{IsLast};
    ghost use Rattle.rk_manifest.specs.Folds.{wants_more, has_failed, bytes_read, HasFed, lacks_memory};
    ghost use Rattle.rk_manifest.specs.Blocks.{ran_out};

    /// Before the first block of a manifest's file. `Memory` comes only where memory runs out.
    pub fn new(alloc: Global) -> Result<ManifestFold, Memory>
        ensures fed { IfOk result (λ fold. HasFed fold false []) }
        ensures begin { IfOk result (λ fold. bytes_read fold ≡ 0) }
        ensures failed { IfOk result (λ fold. has_failed fold ≡ false) }
    {
        Ok(ManifestFold {
            feed: LogFeed::new(alloc, 0),
            progress: Progress::new(alloc)?,
            reading: Ok(Reading::GoesOn),
        })
    }

    /// Takes the next block, each once and in order. `last` says whether the file ends with it; only the
    /// last one may be short. Blocks are passed over once a unit is refused or the log has ended. After a
    /// `Memory` every later call answers `Memory`.
    pub fn feed(&mut self, block: &[u8], last: bool) -> Result<(), Memory>
        requires within { length block.now ≤ BLOCK_LEN }
        requires full { last ≡ false → length block.now ≡ BLOCK_LEN }
        requires fits { bytes_read self.old + length block.now < 2 ^ 64 }
        ensures fed { (bytes : List ℕ) → HasFed self.old false bytes → HasFed self.new last (bytes ++ block.now) }
        ensures read { bytes_read self.new ≤ bytes_read self.old + length block.now }
        ensures last { last ≡ true → wants_more self.new ≡ false }
        ensures failed { has_failed self.new ≡ ran_out result }
        ensures stays_failed { has_failed self.old ≡ true → has_failed self.new ≡ true }
    {
        match self.reading? {
            Reading::GoesOn => self.read_on(block, last),
            Reading::Ended(_) => Ok(()),
        }
    }

    /// Takes the next block, where more blocks are wanted.
    fn read_on(&mut self, block: &[u8], last: bool) -> Result<(), Memory>
        requires reads { wants_more self.old ≡ true }
        requires within { length block.now ≤ BLOCK_LEN }
        requires full { last ≡ false → length block.now ≡ BLOCK_LEN }
        requires fits { bytes_read self.old + length block.now < 2 ^ 64 }
        ensures fed { (bytes : List ℕ) → HasFed self.old false bytes → HasFed self.new last (bytes ++ block.now) }
        ensures read { bytes_read self.new ≤ bytes_read self.old + length block.now }
        ensures last { last ≡ true → wants_more self.new ≡ false }
        ensures failed { has_failed self.new ≡ ran_out result }
    {
        self.reading = take_block(&mut self.feed, &mut self.progress, block, last);
        self.reading?;
        Ok(())
    }

    /// The last version of the blocks that were fed, of which the last one was the file's last, or why
    /// there is none, as `last_version` has it. Takes no memory: `Memory` comes only where `feed` answered
    /// it.
    pub fn finish(self) -> Result<Version, ManifestErr>
        requires { wants_more self ≡ false }
        ensures last { (bytes : List ℕ) → HasFed self true bytes → IsLast (last_version (manifest_units bytes)) result }
        ensures failed { lacks_memory result ≡ has_failed self }
    {
        match self.reading? {
            Reading::GoesOn => unreachable!(),
            Reading::Ended(fault) => Ok(self.progress.finish(fault)?),
        }
    }
}

ghost use Rattle.std.specs.Prelude.{◌≡◌, ◌+◌, ◌<◌, ◌≤◌, ◌^◌, length, true, false};
ghost use Rattle.rk_log.specs.Left.{bytes_before};
ghost use Rattle.rk_manifest.specs.Room.{HasRoom};
ghost use Rattle.rk_manifest.specs.Blocks.{goes_on, TakesBlock};

use crate::progress::Progress;
use crate::reading::Reading;
use rk_bytes::Memory;
use rk_log::{BLOCK_LEN, FeedItem, LogFeed};

/// Takes the items that a block ends.
pub(crate) fn take_block(
    feed: &mut LogFeed,
    progress: &mut Progress,
    block: &[u8],
    last: bool,
) -> Result<Reading, Memory>
    requires within { length block.now ≤ BLOCK_LEN }
    requires full { last ≡ false → length block.now ≡ BLOCK_LEN }
    requires fits { bytes_before feed.old + length block.now < 2 ^ 64 }
    requires room { HasRoom feed.old progress.old.applied.count }
    ensures taken { TakesBlock feed.old progress.old block.now last result feed.new progress.new }
    ensures last { last ≡ true → goes_on result ≡ false }
    ensures before { bytes_before feed.new ≤ bytes_before feed.old + length block.now }
    ensures room { goes_on result ≡ true → HasRoom feed.new progress.new.applied.count }
{
    loop {
        match feed.next(block, last)? {
            FeedItem::Item(item) => {
                if let Reading::Ended(fault) = progress.take(item)? {
                    return Ok(Reading::Ended(fault));
                }
            }
            FeedItem::More => return Ok(Reading::GoesOn),
        }
    }
}

ghost use Rattle.std.specs.Prelude.{◌≡◌, ◌+◌, ◌<◌, ◌≤◌, ◌^◌, length, false};
ghost use Rattle.rk_bytes.specs.Model.Replay.{finding};
ghost use Rattle.rk_log.specs.Items.{item_of};
ghost use Rattle.rk_log.specs.Left.{bytes_before};
ghost use Rattle.rk_walmode.specs.Fed.{is_file_end};
ghost use Rattle.rk_walmode.specs.Founds.{Takes};
ghost use Rattle.rk_walmode.specs.Blocks.{GivesNext, TakesBlock};

use crate::WalErr;
use crate::finding::find;
use crate::progress::{Progress, Reading};
use rk_bytes::Memory;
use rk_log::{BLOCK_LEN, EndKind, FeedItem, Item, LogFeed};

/// Takes the items of the log with this number that a block ends.
pub(crate) fn take_block(
    feed: &mut LogFeed,
    progress: &mut Progress<'_>,
    log: u64,
    block: &[u8],
    last: bool,
) -> Result<Reading, WalErr>
    requires within { length block.now ≤ BLOCK_LEN }
    requires full { last ≡ false → length block.now ≡ BLOCK_LEN }
    requires fits { bytes_before feed.old + length block.now < 2 ^ 64 }
    ensures taken { TakesBlock progress.old.mode progress.old.version.now feed.old progress.old log block.now last result feed.new progress.new }
    ensures version { progress.new.version.now ≡ progress.old.version.now }
    ensures mode { progress.new.mode ≡ progress.old.mode }
    ensures before { bytes_before feed.new ≤ bytes_before feed.old + length block.now }
{
    loop {
        let Some(item) = next_item(feed, block, last)? else {
            return Ok(Reading::GoesOn);
        };
        if let Reading::Ended = take_item(progress, log, item)? {
            return Ok(Reading::Ended);
        }
    }
}

/// Takes the next item of the log with this number.
fn take_item(progress: &mut Progress<'_>, log: u64, item: Item<'_>) -> Result<Reading, WalErr>
    ensures takes { Takes progress.old.mode progress.old.version.now progress.old log (finding (item_of item.entry)) result progress.new }
    ensures version { progress.new.version.now ≡ progress.old.version.now }
    ensures mode { progress.new.mode ≡ progress.old.mode }
{
    progress.take(log, find(&item))
}

/// The next item that a block ends. Before the last block the file's end is none, since the file may be
/// longer.
fn next_item<'b>(
    feed: &mut LogFeed,
    block: &'b [u8],
    last: bool,
) -> Result<Option<Item<'b>>, WalErr>
    requires within { length block.now ≤ BLOCK_LEN }
    requires full { last ≡ false → length block.now ≡ BLOCK_LEN }
    requires fits { bytes_before feed.old + length block.now < 2 ^ 64 }
    ensures { GivesNext feed.old block.now last result feed.new }
{
    match feed.next(block, last) {
        Ok(FeedItem::Item(item)) => {
            if !last && is_file_end(&item) {
                return Ok(None);
            }
            Ok(Some(item))
        }
        Ok(FeedItem::More) => Ok(None),
        Err(Memory) => Err(WalErr::Memory),
    }
}

/// Whether the item is the end of a file that may be longer still.
fn is_file_end(item: &Item<'_>) -> bool
    ensures { result ≡ is_file_end (item_of item.now) }
{
    match item {
        Item::Rec(_, _) | Item::Gap(_, _) => false,
        Item::End(kind, _) => match kind {
            EndKind::Clean | EndKind::Torn => true,
            EndKind::Stale | EndKind::Unsupported(_) => false,
        },
    }
}

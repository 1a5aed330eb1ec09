ghost use Rattle.std.specs.Prelude.{◌≡◌};
ghost use Rattle.rk_log.specs.Left.{log_left};
ghost use Rattle.rk_log.specs.Steps.{Reads};

use crate::block::cut_block;
use crate::{FeedItem, Item, LogFeed};
use rk_bytes::Memory;
use std::alloc::Global;
use std::marker::Model;

/// Reads the bytes of a log's file. Contracts see it as what is left: the items, of which the last is the
/// end, and of each whether it was split.
#[derive(Debug, Drop)]
pub struct LogReader<'a> {
    number: u64,
    /// The bytes from the block on that is read.
    rest: &'a [u8],
    /// Made at the first call of `next`.
    feed: Option<LogFeed>,
}

impl<'a> Model for LogReader<'a> {
    ghost use Rattle.std.specs.Prelude.{length};
    ghost use Rattle.rk_log.specs.Left.{Left};

    ghost Value = { Left };

    ghost use Rattle.rk_log.specs.Walk.{walk_left, WalkFits};

    ghost view = { λ a. walk_left a.feed a.number a.rest.now };

    ghost invariant = { λ a. WalkFits a.feed (length a.rest.now) };
}

impl<'a> LogReader<'a> {
    /// Before the first item of the file of the log with this number. Takes no memory.
    pub fn new(bytes: &'a [u8], number: u64) -> LogReader<'a>
        ensures { result ≡ log_left number bytes.now }
    {
        LogReader {
            number,
            rest: bytes,
            feed: None,
        }
    }

    /// The next item, and after the end that end again. `Memory` comes only where the parts of a split
    /// record are joined, and changes nothing.
    pub fn next(&mut self, alloc: Global) -> Result<Item<'a>, Memory>
        ensures { Reads self.old result self.new }
    {
        let mut feed = match self.feed.take() {
            Some(feed) => feed,
            None => LogFeed::new(alloc, self.number),
        };
        loop {
            let (block, later) = cut_block(self.rest);
            match feed.next(block, later.is_empty()) {
                Ok(FeedItem::Item(item)) => {
                    self.feed = Some(feed);
                    return Ok(item);
                }
                Ok(FeedItem::More) => self.rest = later,
                Err(memory) => {
                    self.feed = Some(feed);
                    return Err(memory);
                }
            }
        }
    }
}

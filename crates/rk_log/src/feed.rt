//! A log's reader that is fed with its blocks.
ghost use Rattle.std.specs.Prelude.{◌≡◌, ◌≢◌, ◌+◌, ◌<◌, ◌≤◌, ◌^◌, ℕ, false, List, length, Some, None};

use crate::block::{BLOCK_LEN, behind, says};
use crate::fragment::{Found, Mark, find};
use crate::joining::Joining;
use crate::{FeedItem, Item};
use rk_bytes::Memory;
use std::alloc::Global;

/// Reads a log that is handed in block by block. It holds one unfinished record and nothing else of the
/// file.
#[derive(Debug, Drop)]
pub struct LogFeed {
    number: u64,
    /// Whether the file is recycled, once a header was seen, which says so.
    recycled: Option<bool>,
    /// How many bytes the blocks before this one have.
    before: u64,
    /// How many bytes of this one were read.
    at: usize,
    joining: Joining,
    ghost undecided: { recycled ≡ None → at ≡ 0 },
}

impl LogFeed {
    ghost use Rattle.rk_bytes.specs.Model.LogMarks.{LogFile};
    ghost use Rattle.rk_log.specs.Fragments.{mark_at};
    ghost use Rattle.rk_log.specs.Left.{left, log_left, bytes_before, has_ended};
    ghost use Rattle.rk_log.specs.Steps.{Feeds, FindsMark, Advances};
    ghost use Rattle.rk_log.specs.Blocks.{or_says};

    /// Before the first block of the log with this number. Takes no memory yet.
    pub fn new(alloc: Global, number: u64) -> LogFeed
        ensures left { (bytes : List ℕ) → left result bytes ≡ log_left number bytes }
        ensures before { bytes_before result ≡ 0 }
        ensures ended { has_ended result ≡ false }
    {
        LogFeed {
            number,
            recycled: None,
            before: 0,
            at: 0,
            joining: Joining::new(alloc),
        }
    }

    /// The next item that this block ends, and after the log's end that end again, or `More` where the
    /// block ends no further item. The same block is handed in until `More` comes, and then the next one.
    /// `last` says whether the file ends with the block; only the last one may be short. `Memory` comes
    /// only where the parts of a split record are joined.
    pub fn next<'b>(&mut self, block: &'b [u8], last: bool) -> Result<FeedItem<'b>, Memory>
        requires within { length block.now ≤ BLOCK_LEN }
        requires full { last ≡ false → length block.now ≡ BLOCK_LEN }
        requires fits { bytes_before self.old + length block.now < 2 ^ 64 }
        ensures { Feeds self.old block.now last result self.new }
    {
        if let Some(end) = self.joining.given() {
            return Ok(FeedItem::Item(end));
        }
        match self.look_at(block, last) {
            Some(recycled) => self.next_in(recycled, block, last),
            None => {
                self.go_on(block.len());
                Ok(FeedItem::More)
            }
        }
    }

    /// Looks at the block's first header for whether the file is recycled, unless an earlier one said so.
    fn look_at(&mut self, block: &[u8], last: bool) -> Option<bool>
        ensures recycled { self.new.recycled ≡ or_says self.old.recycled block.now last }
        ensures result { result ≡ self.new.recycled }
        ensures number { self.new.number ≡ self.old.number }
        ensures before { self.new.before ≡ self.old.before }
        ensures at { self.new.at ≡ self.old.at }
        ensures joining { self.new.joining ≡ self.old.joining }
    {
        if self.recycled.is_none() {
            self.recycled = says(block, last);
        }
        self.recycled
    }

    /// Goes on to the next block, behind one of this length.
    fn go_on(&mut self, len: usize)
        requires { self.old.before + len < 2 ^ 64 }
        ensures number { self.new.number ≡ self.old.number }
        ensures recycled { self.new.recycled ≡ self.old.recycled }
        ensures before { self.new.before ≡ self.old.before + len }
        ensures at { self.new.at ≡ 0 }
        ensures joining { self.new.joining ≡ self.old.joining }
    {
        self.before += len as u64;
        self.at = 0;
    }

    /// The next item that this block ends, or `More`, where the file is recycled or not.
    fn next_in<'b>(
        &mut self,
        recycled: bool,
        block: &'b [u8],
        last: bool,
    ) -> Result<FeedItem<'b>, Memory>
        requires recycled { self.old.recycled ≡ Some recycled }
        requires goes_on { self.old.joining.given ≡ None }
        requires within { length block.now ≤ BLOCK_LEN }
        requires full { last ≡ false → length block.now ≡ BLOCK_LEN }
        requires fits { self.old.before + length block.now < 2 ^ 64 }
        ensures { Feeds self.old block.now last result self.new }
    {
        while let Some((mark, len)) = self.mark_in(recycled, block) {
            if let Some(item) = self.advance(mark, len)? {
                return Ok(FeedItem::Item(item));
            }
        }
        if last {
            return Ok(FeedItem::Item(self.joining.finish(self.before + block.len() as u64)));
        }
        self.go_on(block.len());
        Ok(FeedItem::More)
    }

    /// The mark where reading stands in the block, and how many bytes it takes, or `None` where what is
    /// left of the block has none.
    fn mark_in<'b>(&self, recycled: bool, block: &'b [u8]) -> Option<(Mark<'b>, usize)>
        ensures { FindsMark (record { number = self.now.number; recycled = recycled }) self.now.before self.now.at block.now result }
    {
        let rest = behind(block, self.at);
        if rest.is_empty() {
            return None;
        }
        match find(self.number, recycled, block.len() == BLOCK_LEN, rest) {
            Found::Nothing => None,
            Found::WholeRest(mark) => Some((mark, rest.len())),
            Found::Fragment(mark, len) => Some((mark, len)),
        }
    }

    /// Takes the mark where reading stands, of so many bytes, and passes over it, or breaks off the record
    /// that stood unfinished before it.
    fn advance<'b>(&mut self, mark: Mark<'b>, len: usize) -> Result<Option<Item<'b>>, Memory>
        requires goes_on { self.old.joining.given ≡ None }
        requires known { self.old.recycled ≢ None }
        requires fits { self.old.before + (self.old.at + len) < 2 ^ 64 }
        ensures { Advances self.old (mark_at (self.old.before + self.old.at) mark.entry) len result self.new }
    {
        if mark.begins_record() {
            if let Some(item) = self.joining.break_off() {
                return Ok(Some(item));
            }
        }
        let item = self.joining.take(mark, self.before + self.at as u64)?;
        self.at += len;
        Ok(item)
    }
}

ghost use Rattle.std.specs.Prelude.{◌≡◌, None, false, is_ok, is_some};

use crate::block::take_block;
use crate::progress::{Progress, Reading};
use crate::{Mode, Replayed, WalErr};
use rk_bytes::model::Version;
use rk_log::{BLOCK_LEN, LogFeed};
use std::alloc::Global;

/// Replays logs that are handed in block by block, over a version and in a mode. It holds the records that
/// are admitted, one unfinished record of a log and nothing else of the files.
#[derive(Debug, Drop)]
pub struct ReplayRun<'v> {
    alloc: Global,
    progress: Progress<'v>,
    /// The first refusal, or that memory ran out.
    outcome: Result<(), WalErr>,
    /// The number of the log of which more blocks are to come.
    log: Option<u64>,
    /// What reads that log, unless it was given up since nothing that follows in the log counts.
    feed: Option<LogFeed>,
    ghost given_up: { is_ok outcome ≡ false → is_some feed ≡ false },
}

impl<'v> ReplayRun<'v> {
    ghost use Rattle.std.specs.Prelude.{◌+◌, ◌<◌, ◌≤◌, ◌^◌, ℕ, List, [], ◌∷◌, ◌++◌, true, length, Some, IfOk, IfSome, unwrap_or, if◌then◌else◌};
    ghost use Rattle.std.specs.List.{All};
    ghost use Rattle.rk_bytes.specs.declared.model.key.Record.{Record};
    ghost use Rattle.rk_bytes.specs.Model.InternalKey.{top_sequence};
    ghost use Rattle.rk_bytes.specs.Model.Replay.{Log, replay};
    ghost use Rattle.rk_walmode.specs.Fed.{Fed, with_block, AnswersSoFar, Refuses, Replays, lacks_memory};
    ghost use Rattle.rk_walmode.specs.Runs.{version_of, mode_of, open_log, bytes_read, has_failed, HasFed};
    ghost use Rattle.rk_walmode.specs.Parts.{opened, handed, HasRead};

    /// Before the first log. Takes no memory yet.
    pub fn new(alloc: Global, version: &'v Version, mode: Mode) -> ReplayRun<'v>
        requires { unwrap_or version.now.last_sequence 0 ≤ top_sequence }
        ensures fed { HasFed result (record { whole = []; begun = None }) }
        ensures version { version_of result ≡ version.now }
        ensures mode { mode_of result ≡ mode }
        ensures log { open_log result ≡ None }
        ensures read { bytes_read result ≡ 0 }
        ensures failed { has_failed result ≡ false }
    {
        ReplayRun {
            alloc,
            progress: Progress::new(alloc, version, mode),
            outcome: Ok(()),
            log: None,
            feed: None,
        }
    }

    /// Takes the next block of the log with this number, each once and in order; the logs come in rising
    /// number. `last` says whether the log's file ends with the block; only the last one may be short. An
    /// error says why the logs aren't replayed: it is answered as soon as the blocks show it, and then
    /// again at every later call.
    pub fn feed(&mut self, log: u64, block: &[u8], last: bool) -> Result<(), WalErr>
        requires same_log { IfSome (open_log self.old) (λ number. number ≡ log) }
        requires within { length block.now ≤ BLOCK_LEN }
        requires full { last ≡ false → length block.now ≡ BLOCK_LEN }
        requires fits { bytes_read self.old + length block.now < 2 ^ 64 }
        ensures fed { (fed : Fed) → HasFed self.old fed → HasFed self.new (with_block fed log block.now last) }
        ensures refused { (fed : Fed) → HasFed self.old fed → Refuses (mode_of self.old) (version_of self.old) (with_block fed log block.now last) result }
        ensures so_far { (fed : Fed) → HasFed self.old fed → AnswersSoFar (mode_of self.old) (version_of self.old) (with_block fed log block.now last) result }
        ensures version { version_of self.new ≡ version_of self.old }
        ensures mode { mode_of self.new ≡ mode_of self.old }
        ensures log { open_log self.new ≡ (if last then None else Some log) }
        ensures read { bytes_read self.new ≤ bytes_read self.old + length block.now }
        ensures read_whole { last ≡ true → bytes_read self.new ≡ 0 }
        ensures failed { has_failed self.new ≡ lacks_memory result }
        ensures stays_failed { has_failed self.old ≡ true → has_failed self.new ≡ true }
    {
        self.begin(log);
        self.read(log, block, last);
        self.end_if(last);
        self.outcome
    }

    /// Begins the log with this number, unless it is begun.
    fn begin(&mut self, log: u64)
        requires same_log { IfSome (open_log self.old) (λ number. number ≡ log) }
        ensures fed { (fed : Fed) → HasFed self.old fed → HasRead self.new false fed.whole (opened fed.begun log) }
        ensures version { version_of self.new ≡ version_of self.old }
        ensures mode { mode_of self.new ≡ mode_of self.old }
        ensures log { open_log self.new ≡ Some log }
        ensures read { bytes_read self.new ≤ bytes_read self.old }
        ensures failed { has_failed self.new ≡ has_failed self.old }
    {
        if self.log.is_none() {
            self.log = Some(log);
            self.feed = match self.outcome {
                Ok(()) => Some(LogFeed::new(self.alloc, log)),
                Err(_) => None,
            };
        }
    }

    /// Takes the next block of the log that is begun, unless nothing that follows in it counts.
    fn read(&mut self, log: u64, block: &[u8], last: bool)
        requires log { open_log self.old ≡ Some log }
        requires within { length block.now ≤ BLOCK_LEN }
        requires full { last ≡ false → length block.now ≡ BLOCK_LEN }
        requires fits { bytes_read self.old + length block.now < 2 ^ 64 }
        ensures fed { (whole : List Log) (before : Log) → HasRead self.old false whole before → HasRead self.new last whole (record { number = before.number; bytes = before.bytes ++ block.now }) }
        ensures version { version_of self.new ≡ version_of self.old }
        ensures mode { mode_of self.new ≡ mode_of self.old }
        ensures log { open_log self.new ≡ Some log }
        ensures read { bytes_read self.new ≤ bytes_read self.old + length block.now }
        ensures failed { has_failed self.old ≡ true → has_failed self.new ≡ true }
    {
        let Some(feed) = &mut self.feed else {
            return;
        };
        match take_block(feed, &mut self.progress, log, block, last) {
            Ok(Reading::GoesOn) => {}
            Ok(Reading::Ended) => self.feed = None,
            Err(why) => {
                self.feed = None;
                self.outcome = Err(why);
            }
        }
    }

    /// Ends the log that is begun, if its file ends.
    fn end_if(&mut self, last: bool)
        ensures fed { (whole : List Log) (log : Log) → HasRead self.old last whole log → HasFed self.new (handed whole log last) }
        ensures version { version_of self.new ≡ version_of self.old }
        ensures mode { mode_of self.new ≡ mode_of self.old }
        ensures outcome { self.new.outcome ≡ self.old.outcome }
        ensures log { open_log self.new ≡ (if last then None else open_log self.old) }
        ensures read { bytes_read self.new ≤ bytes_read self.old }
        ensures read_whole { last ≡ true → bytes_read self.new ≡ 0 }
    {
        if last {
            self.log = None;
            self.feed = None;
        }
    }

    /// What the logs that were fed add, or why they aren't replayed, as `replay` has it. Takes no memory:
    /// `Memory` comes only where `feed` answered it.
    pub fn finish(self) -> Result<Replayed, WalErr>
        requires { open_log self ≡ None }
        ensures replayed { (fed : Fed) → HasFed self.entry fed → Replays (replay (mode_of self.entry) (version_of self.entry) fed.whole) result }
        ensures sequences { IfOk result (λ replayed. All (λ (r : Record). r.sequence ≤ top_sequence) replayed.records) }
        ensures failed { lacks_memory result ≡ has_failed self.entry }
    {
        match self.outcome {
            Ok(()) => self.progress.finish(),
            Err(why) => Err(why),
        }
    }
}

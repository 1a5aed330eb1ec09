//! What the logs so far come to.
ghost use Rattle.std.specs.Prelude.{◌≡◌, ◌≤◌, unwrap_or, filter, slice_get, option_map, IfOk, None};
ghost use Rattle.std.specs.List.{All};
ghost use Rattle.rk_bytes.specs.declared.model.manifest.FamilyState.{FamilyState};
ghost use Rattle.rk_bytes.specs.Model.InternalKey.{top_sequence};
ghost use Rattle.rk_bytes.specs.Model.Replay.{is_refused, is_ahead};
ghost use Rattle.rk_walmode.specs.Low.{IsLow};

use crate::batch::add_records;
use crate::finding::Found;
use crate::{Mode, Replayed, WalErr, WalWhy};
use rk_batch::BatchView;
use rk_bytes::model::{FamilyState, Record, Version};
use rk_bytes::{Memory, Seq};
use std::alloc::Global;

/// Where replay stopped.
#[derive(Clone, Copy, Debug, PartialEq, Eq)]
pub(crate) struct Stop {
    /// The log's number.
    pub log: u64,
    /// At damage, and not at an earlier life of the file.
    pub damaged: bool,
}

/// Whether the reading of a log goes on.
#[derive(Clone, Copy, Debug, PartialEq, Eq)]
pub(crate) enum Reading {
    /// More may follow.
    GoesOn,
    /// Nothing that follows in the log counts.
    Ended,
}

/// What the logs so far come to, over a version and in a mode.
#[derive(Debug, Drop)]
pub(crate) struct Progress<'v> {
    alloc: Global,
    version: &'v Version,
    mode: Mode,
    /// The records that are admitted.
    records: Seq<Record>,
    /// The sequence number of the batch that is to come next.
    expected: u64,
    /// Where replay is stopped, if it is.
    stopped: Option<Stop>,
    ghost low: { All IsLow records },
}

impl<'v> Progress<'v> {
    ghost use Rattle.std.specs.Prelude.{◌&&◌, not, is_some};
    ghost use Rattle.rk_bytes.specs.Model.Replay.{damage};
    ghost use Rattle.rk_bytes.specs.Model.Replay as definition;
    ghost use Rattle.rk_walmode.specs.Founds.{finding_in, IsWhole, Takes, Adds};
    ghost use Rattle.rk_walmode.specs.Low.{IsUnread};
    ghost use Rattle.rk_walmode.specs.Walks.{is_next, first_walk, ahead_of};
    ghost use Rattle.rk_walmode.specs.Runs.{IsAt};
    ghost use Rattle.rk_walmode.specs.Ends.{Finishes};

    /// Before the first log.
    pub(crate) fn new(alloc: Global, version: &'v Version, mode: Mode) -> Progress<'v>
        requires { unwrap_or version.now.last_sequence 0 ≤ top_sequence }
        ensures come { IsAt result (first_walk version.now) }
        ensures version { result.version.now ≡ version.now }
        ensures mode { result.mode ≡ mode }
    {
        Progress {
            alloc,
            version,
            mode,
            records: Seq::new(alloc),
            expected: version.last_sequence.unwrap_or(0) + 1,
            stopped: None,
        }
    }

    /// Takes what is found next in the log with this number. Where replay is stopped, that is the log's
    /// first item: the log goes on there or doesn't count.
    pub(crate) fn take(&mut self, log: u64, found: Found<'_>) -> Result<Reading, WalErr>
        requires whole { IsWhole found }
        ensures takes { Takes self.old.mode self.old.version.now self.old log (finding_in found.entry) result self.new }
        ensures version { self.new.version.now ≡ self.old.version.now }
        ensures mode { self.new.mode ≡ self.old.mode }
    {
        if self.waits_at(&found) {
            return Ok(Reading::Ended);
        }
        self.stopped = None;
        self.add(log, found)
    }

    /// Whether replay is stopped and doesn't go on at this finding.
    fn waits_at(&self, found: &Found<'_>) -> bool
        ensures { result ≡ (is_some self.now.stopped && not (is_next self.now.expected (finding_in found.now))) }
    {
        self.stopped.is_some() && !self.is_next(found)
    }

    /// Whether the finding is a batch at the expected sequence number.
    fn is_next(&self, found: &Found<'_>) -> bool
        ensures { result ≡ is_next self.now.expected (finding_in found.now) }
    {
        match found {
            Found::Batch(batch) => batch.sequence() == self.expected,
            Found::Damage(_, _) | Found::Unsupported(_) | Found::StaleEnd | Found::CleanEnd =>
                false,
        }
    }

    /// Takes what is found next in the log with this number, where replay isn't stopped.
    fn add(&mut self, log: u64, found: Found<'_>) -> Result<Reading, WalErr>
        requires reads { self.old.stopped ≡ None }
        requires whole { IsWhole found }
        ensures adds { Adds self.old.mode self.old.version.now self.old log (finding_in found.entry) result self.new }
        ensures version { self.new.version.now ≡ self.old.version.now }
        ensures mode { self.new.mode ≡ self.old.mode }
    {
        match found {
            Found::Batch(batch) => self.add_batch(log, batch),
            Found::Damage(why, place) => self.pass_damage(log, why, place),
            Found::Unsupported(what) => Err(WalErr::UnsupportedLog { log, what }),
            Found::StaleEnd => {
                if self.mode == Mode::PointInTime {
                    self.stopped = Some(Stop {
                        log,
                        damaged: false,
                    });
                }
                Ok(Reading::Ended)
            }
            Found::CleanEnd => Ok(Reading::Ended),
        }
    }

    /// Takes a batch of the log with this number.
    fn add_batch(&mut self, log: u64, batch: BatchView<'_>) -> Result<Reading, WalErr>
        requires reads { self.old.stopped ≡ None }
        requires whole { IsUnread batch }
        ensures adds { Adds self.old.mode self.old.version.now self.old log (definition.batch batch.entry.batch) result self.new }
        ensures version { self.new.version.now ≡ self.old.version.now }
        ensures mode { self.new.mode ≡ self.old.mode }
    {
        let expected = batch.sequence() + u64::from(batch.count());
        match add_records(self.alloc, self.version, log, batch, &mut self.records) {
            Ok(()) => {
                self.expected = expected;
                Ok(Reading::GoesOn)
            }
            Err(Memory) => Err(WalErr::Memory),
        }
    }

    /// Passes over damage at this place of the log, or stops there, or refuses it.
    fn pass_damage(&mut self, log: u64, why: WalWhy, place: u64) -> Result<Reading, WalErr>
        requires reads { self.old.stopped ≡ None }
        ensures adds { Adds self.old.mode self.old.version.now self.old log (damage why place) result self.new }
        ensures version { self.new.version.now ≡ self.old.version.now }
        ensures mode { self.new.mode ≡ self.old.mode }
    {
        if refuses(self.mode, why) {
            return Err(WalErr::Corrupt { log, place, why });
        }
        if self.mode == Mode::PointInTime {
            self.stopped = Some(Stop { log, damaged: true });
            return Ok(Reading::Ended);
        }
        match why {
            WalWhy::Torn => Ok(Reading::Ended),
            WalWhy::Gap(_) | WalWhy::Batch(_) => Ok(Reading::GoesOn),
        }
    }

    /// What the logs add, where no log follows, or the family that is ahead of them.
    pub(crate) fn finish(self) -> Result<Replayed, WalErr>
        ensures finishes { Finishes self.entry result }
        ensures low { IfOk result (λ replayed. All IsLow replayed.records) }
    {
        match self.ahead() {
            Some(why) => Err(why),
            None => Ok(Replayed {
                records: self.records,
                expected: self.expected,
                stopped: self.stopped.map(|stop| stop.log),
            }),
        }
    }

    /// Why the version can't stand on the logs, where replay stopped at damage.
    fn ahead(&self) -> Option<WalErr>
        ensures { result ≡ slice_get (ahead_of self.now.version.now self.now.stopped) 0 }
    {
        let stop = self.stopped?;
        if !stop.damaged {
            return None;
        }
        let family = first_ahead(self.version.families.as_slice(), stop.log)?;
        Some(WalErr::FamilyAhead {
            family,
            log: stop.log,
        })
    }
}

/// Whether the mode refuses this damage.
fn refuses(mode: Mode, why: WalWhy) -> bool
    ensures { result ≡ is_refused mode why }
{
    match mode {
        Mode::TolerateTail => why != WalWhy::Torn,
        Mode::Absolute => true,
        Mode::PointInTime | Mode::SkipAny => false,
    }
}

/// The id of the first family that has a table and a log number above this one.
fn first_ahead(families: &[FamilyState], log: u64) -> Option<u32>
    ensures { result ≡ option_map (λ (live : FamilyState). live.id) (slice_get (filter (is_ahead log) families.now) 0) }
{
    for live in families {
        if live.log > log && !live.files.as_slice().is_empty() {
            return Some(live.id);
        }
    }
    None
}

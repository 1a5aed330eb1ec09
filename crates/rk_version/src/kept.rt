//! What is kept of an edit that is applied, so that it can be taken back.
ghost use Rattle.std.specs.List.{All};
ghost use Rattle.rk_version.specs.Bounds.{HasWholeBounds};

use crate::ranked::RankedFamily;
use crate::{FileMeta, Tracked};
use rk_bytes::Seq;

/// What an edit replaced in a version. Its size is that of what the edit changes.
#[derive(Debug, Drop)]
pub(crate) struct KeptEdit {
    /// The family that the edit speaks of.
    pub id: u32,
    pub family: KeptFamily,
    pub log_seen: bool,
    pub next_file: Option<u64>,
    pub last_sequence: Option<u64>,
    pub least_log: u64,
    pub greatest_family: u32,
    /// The logs that the edit tracks.
    pub tracks: Seq<u64>,
    /// Of the logs that were tracked before, those that the edit speaks of.
    pub wals: Seq<Tracked>,
}

/// What an edit replaced of its family.
#[derive(Debug, Drop)]
pub(crate) enum KeptFamily {
    /// The family wasn't live.
    Missing,
    /// The edit dropped it.
    Dropped(RankedFamily),
    /// The edit changed its log number or its files.
    Changed(KeptFiles),
}

/// What an edit replaced in a family that stays.
#[derive(Debug, Drop)]
pub(crate) struct KeptFiles {
    /// The log number.
    pub log: u64,
    /// The numbers of the files that the edit deletes or adds.
    pub numbers: Seq<u64>,
    /// The files with these numbers.
    pub files: Seq<FileMeta>,
    ghost bounds: { All HasWholeBounds files },
}

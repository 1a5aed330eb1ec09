//! What a manifest says, and why it can't be used.
use super::edit::{EditFault, Seqs};
use super::log::GapWhy;
use crate::{Bytes, Seq};

/// What in a manifest's log is damaged.
#[derive(Clone, Copy, Debug, PartialEq, Eq)]
pub enum ManifestWhy {
    /// A piece of the log is left out.
    Gap(GapWhy),
    /// A log record of a type that isn't supported.
    Unsupported(u8),
}

/// Why a unit of a manifest isn't applied to the version before it.
#[derive(Clone, Copy, Debug, PartialEq, Eq)]
pub enum ApplyFault {
    /// A comparator that isn't the bytewise one.
    UnsupportedComparator,
    /// A family is added whose id or name is there.
    FamilyExists(u32),
    /// The edit speaks of a family that isn't there.
    UnknownFamily(u32),
    /// A file is deleted that isn't in that family at that level.
    DeleteAbsent(u64),
    /// A file is added whose number is there.
    AddPresent(u64),
    /// Two files of this family and this level above 0 overlap.
    Overlap { family: u32, level: u32 },
    /// Want of memory, which no definition gives.
    Memory,
}

/// Why an edit of a manifest is bad.
#[derive(Clone, Copy, Debug, PartialEq, Eq)]
pub enum EditWhy {
    /// It doesn't read.
    Read(EditFault),
    /// Its unit isn't applied.
    Apply(ApplyFault),
}

/// What the edits of a manifest have to state.
#[derive(Clone, Copy, Debug, PartialEq, Eq)]
pub enum Which {
    LogNumber,
    NextFile,
    LastSequence,
}

/// The first fault of a manifest. Units are numbered from 1.
#[derive(Clone, Copy, Debug, PartialEq, Eq)]
pub enum ManifestFault {
    /// The log is damaged at this place.
    Damaged { place: u64, why: ManifestWhy },
    /// An edit of this unit is bad.
    BadEdit { unit: u64, why: EditWhy },
    /// An edit within the group of this unit doesn't state how many are left, or states another number.
    BadGroup { unit: u64 },
    /// The edits state no such number.
    NoFields(Which),
}

/// A table that a version lists.
#[derive(Debug, Drop)]
pub struct FileMeta {
    pub number: u64,
    pub level: u32,
    /// The file's length in bytes.
    pub size: u64,
    /// The stated lower bound, an internal key.
    pub smallest: Bytes,
    /// The stated upper bound, an internal key.
    pub largest: Bytes,
    /// The sequence numbers, where the edit that added the table stated them.
    pub seqs: Option<Seqs>,
}

/// A log that has to be there, as the manifest says.
#[derive(Clone, Copy, Debug, PartialEq, Eq)]
pub struct Tracked {
    /// The log's number.
    pub log: u64,
    /// How many of its bytes were synced, in bytes, where an edit stated it.
    pub synced: Option<u64>,
}

/// A live column family.
#[derive(Debug, Drop)]
pub struct FamilyState {
    pub id: u32,
    pub name: Bytes,
    /// The least number of a log that may hold records of the family that no table holds.
    pub log: u64,
    /// In rising number.
    pub files: Seq<FileMeta>,
}

/// What the units of a manifest amount to.
#[derive(Debug, Drop)]
pub struct Version {
    /// In rising id.
    pub families: Seq<FamilyState>,
    /// Some edit stated a log number.
    pub log_seen: bool,
    pub next_file: Option<u64>,
    pub last_sequence: Option<u64>,
    /// The least number of a log that is still needed.
    pub least_log: u64,
    /// The greatest family id that an edit stated.
    pub greatest_family: u32,
    /// The logs that are tracked, in rising number.
    pub wals: Seq<Tracked>,
}

//! What a salvage finds and what a repair reports, and why there is none.
use super::table::TableWhat;
use super::wal::LogWhat;
use crate::{Bytes, Seq, Text};

/// Why a directory isn't salvaged, in the order of the tests.
#[derive(Clone, Copy, Debug, PartialEq, Eq)]
pub enum SurveyErr {
    /// The greatest number in use leaves too few for new files.
    NumbersExhausted(u64),
    /// A table has something that isn't supported.
    UnsupportedTable { n: u64, what: TableWhat },
    /// A log has something that isn't supported.
    UnsupportedLog { n: u64, what: LogWhat },
    /// What a family would add to the tables doesn't fit one table.
    FamilyTooLarge(u32),
    /// The disk failed, which no definition gives.
    DiskFault,
    /// Want of memory, which no definition gives.
    Memory,
}

/// A column family by its id and its name.
#[derive(Debug, Drop)]
pub struct FamilyName {
    pub id: u32,
    pub name: Bytes,
}

/// A good table that is kept.
#[derive(Debug, Drop)]
pub struct Kept {
    pub number: u64,
    /// The file's length in bytes.
    pub size: u64,
    pub family: u32,
    /// The least internal key of a record or of a range deletion's start.
    pub smallest: Option<Bytes>,
    /// The greatest internal key of a record or at a range deletion's end.
    pub largest: Option<Bytes>,
    /// The least sequence number of a record or of a range deletion, 0 with none.
    pub least: u64,
    /// The greatest sequence number of a record or of a range deletion, 0 with none.
    pub greatest: u64,
}

/// A file that a repair moves.
#[derive(Debug, Drop)]
pub struct Moved {
    pub name: Text,
    /// The name below `lost/` that it gets.
    pub lost: Text,
}

/// What a repair did.
#[derive(Debug, Drop)]
pub struct Report {
    /// The logs in rising number, then the tables that aren't kept, in rising number.
    pub moved: Seq<Moved>,
    /// How many column families are known.
    pub families: u64,
    /// How many tables are kept, empty ones too.
    pub tables: u64,
    /// How many logs are moved.
    pub logs: u64,
    /// How many tables are added.
    pub added: u64,
    /// How many tables are moved.
    pub archived: u64,
    /// How many records the database has then.
    pub records: u64,
}

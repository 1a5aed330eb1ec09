//! How write-ahead logs are replayed, and why they can't be.
use super::batch::BatchFault;
use super::log::GapWhy;

/// How the replay of logs treats what is damaged. The number of a mode is its place in this list.
#[derive(Clone, Copy, Debug, PartialEq, Eq)]
pub enum Mode {
    /// A record that the file's end cuts off is left out. Any other damage is refused.
    TolerateTail,
    /// Any damage is refused.
    Absolute,
    /// Replay stops at the first damage.
    PointInTime,
    /// Damage is passed over.
    SkipAny,
}

/// What in a log isn't supported.
#[derive(Clone, Copy, Debug, PartialEq, Eq)]
pub enum LogWhat {
    /// The type of a log record.
    RecordType(u8),
    /// The tag of a record in a write batch.
    Tag(u8),
}

/// What in a log is damaged.
#[derive(Clone, Copy, Debug, PartialEq, Eq)]
pub enum WalWhy {
    /// A piece of the log is left out.
    Gap(GapWhy),
    /// The file's end cuts a record off.
    Torn,
    /// A record isn't a write batch.
    Batch(BatchFault),
}

/// Why logs aren't replayed.
#[derive(Clone, Copy, Debug, PartialEq, Eq)]
pub enum WalErr {
    /// The log is damaged at this place, which the mode refuses.
    Corrupt { log: u64, place: u64, why: WalWhy },
    /// Replay stopped in this log, and the family has tables with records of later logs.
    FamilyAhead { family: u32, log: u64 },
    /// Something in the log isn't supported.
    UnsupportedLog { log: u64, what: LogWhat },
    /// Want of memory, which no definition gives.
    Memory,
}

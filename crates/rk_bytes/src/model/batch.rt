//! Why a write batch doesn't read.

/// Why a write batch doesn't read.
#[derive(Clone, Copy, Debug, PartialEq, Eq)]
pub enum BatchFault {
    /// Fewer than 12 bytes.
    TooSmall,
    /// At this place of the batch no record reads.
    BadRecord(u64),
    /// The tag of a record that isn't supported.
    UnsupportedTag(u8),
    /// The batch states another number of changes than stand in it.
    WrongCount { stated: u32, found: u64 },
    /// The batch's sequence number, or that of its last change, is above the greatest one.
    SequenceTop,
}

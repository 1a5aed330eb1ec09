//! What stands in the blocks of a table.
use crate::Bytes;

/// Why a block isn't one.
#[derive(Clone, Copy, Debug, PartialEq, Eq)]
pub enum BlockFault {
    /// It has fewer bytes than its restart count.
    Short,
    /// It has a hash index, which isn't supported.
    HashIndex,
    /// Its restart offsets don't fit, or one of them isn't where it must be.
    BadRestarts,
    /// The entry at this place doesn't read.
    BadEntry(u64),
}

/// Why an index block isn't one, or a block whose values are handles.
#[derive(Clone, Copy, Debug, PartialEq, Eq)]
pub enum IndexFault {
    /// The block doesn't read.
    Block(BlockFault),
    /// A value isn't a handle.
    BadHandle,
    /// Want of memory, which no definition gives.
    Memory,
}

/// Where a block stands in its file.
#[derive(Clone, Copy, Debug, PartialEq, Eq)]
pub struct Handle {
    /// The place of its first byte.
    pub offset: u64,
    /// How many bytes it has, without its trailer.
    pub size: u64,
}

/// Where a data block stands. Its keys are at most the separator.
#[derive(Debug, Drop)]
pub struct IndexEntry {
    /// An internal key, or a user key where the table's properties say so.
    pub separator: Bytes,
    pub block: Handle,
}

/// Why a block isn't one of range deletions.
#[derive(Clone, Copy, Debug, PartialEq, Eq)]
pub enum RangeFault {
    /// The block doesn't read.
    Block(BlockFault),
    /// A key isn't the internal key of a range deletion.
    BadKey,
    /// Want of memory, which no definition gives.
    Memory,
}

/// A property of a table.
#[derive(Debug, Drop)]
pub struct Property {
    pub name: Bytes,
    pub value: Bytes,
}

/// A range deletion in a table: of the keys from its start up to its end, the end excluded.
#[derive(Debug, Drop)]
pub struct RangeDel {
    pub start: Bytes,
    pub end: Bytes,
    pub sequence: u64,
}

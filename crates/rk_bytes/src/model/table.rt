//! What a table's file is found to be.
use super::block::{Handle, IndexEntry, Property, RangeDel};
use super::manifest::Version;
use crate::{Bytes, Seq};

/// Where a table's parts are found, and how they are summed.
#[derive(Clone, Copy, Debug, PartialEq, Eq)]
pub struct Footer {
    /// The format's version: 0 with a legacy footer.
    pub version: u32,
    /// How the blocks are summed.
    pub sum: SumKind,
    /// The block that names the other meta blocks.
    pub metaindex: Handle,
    /// The index block.
    pub index: Handle,
    /// The footer's own place.
    pub start: u64,
}

/// Why a table's footer isn't one, in the order of the tests.
#[derive(Clone, Copy, Debug, PartialEq, Eq)]
pub enum FooterFault {
    /// There are fewer bytes than a footer has.
    FooterShort,
    /// The last eight bytes are no table's.
    BadMagic,
    /// A version that isn't supported.
    UnsupportedVersion(u32),
    /// A kind of checksum that isn't supported.
    UnsupportedChecksum(u8),
    /// A handle doesn't read.
    BadHandle,
}

/// Why a block of a file can't be read, in the order of the tests.
#[derive(Clone, Copy, Debug, PartialEq, Eq)]
pub enum TrailerFault {
    /// The block or its trailer passes the end of the bytes.
    OutOfFile,
    /// The stored checksum isn't the block's.
    Checksum,
    /// The block is compressed in this way, which isn't supported.
    Compressed(u8),
}

/// Why a table is damaged.
#[derive(Clone, Copy, Debug, PartialEq, Eq)]
pub enum TableWhy {
    /// There are fewer bytes than a footer has.
    FooterShort,
    /// The last eight bytes are no table's.
    BadMagic,
    /// What should be a handle doesn't read.
    BadHandle,
    /// A block passes the footer's start.
    OutOfFile,
    /// A block's stored checksum isn't its own.
    Checksum,
    /// A block's entries or restart offsets don't read.
    Block,
    /// A property's value hasn't its form.
    BadProperty,
    /// A key is none that may stand there.
    BadKey,
    /// A key isn't above the one before.
    BadOrder,
    /// A data block lies outside its separators.
    BadSeparator,
}

/// What in a table isn't supported.
#[derive(Clone, Copy, Debug, PartialEq, Eq)]
pub enum TableWhat {
    /// The format's version.
    Version(u32),
    /// The kind of checksum.
    Checksum(u8),
    /// A block's compression.
    Compressed(u8),
    /// Another comparator than the bytewise one.
    Comparator,
    /// The index's type.
    IndexType(u32),
    /// It was written outside a database.
    External,
    /// A block with a hash index.
    HashIndex,
    /// A record's kind.
    RecordKind(u8),
}

/// What is known of a good table.
#[derive(Debug, Drop)]
pub struct TableRef {
    /// The column family that it belongs to.
    pub family: u32,
    pub family_name: Bytes,
    /// How many data records it has.
    pub entries: u64,
    /// In the order of their block.
    pub ranges: Seq<RangeDel>,
    /// In the order of their block.
    pub properties: Seq<Property>,
    pub index: Seq<IndexEntry>,
    /// The separators are user keys.
    pub user_keys: bool,
    pub sum: SumKind,
    /// The least internal key of a record or of a range deletion's start.
    pub smallest: Option<Bytes>,
    /// The greatest internal key of a record or at a range deletion's end.
    pub largest: Option<Bytes>,
    /// The greatest sequence number of a record or of a range deletion, 0 with none.
    pub top: u64,
    /// The footer's place.
    pub start: u64,
}

/// How a table's blocks are summed. The number in the footer is the variant's place in this list.
#[derive(Clone, Copy, Debug, PartialEq, Eq)]
pub enum SumKind {
    /// No sum: 0 is stored, and nothing is tested.
    NoSum,
    /// CRC32C, masked.
    Crc32c,
    /// XXH32 with seed 0.
    Xxh32,
    /// The low 32 bits of XXH64 with seed 0.
    Xxh64,
}

//! The tags of fields (RocksDB's db/version_edit.h).

pub(crate) const COMPARATOR: u32 = 1;

pub(crate) const LOG_NUMBER: u32 = 2;

pub(crate) const NEXT_FILE: u32 = 3;

pub(crate) const LAST_SEQUENCE: u32 = 4;

pub(crate) const COMPACT_CURSOR: u32 = 5;

pub(crate) const DELETE_FILE: u32 = 6;

pub(crate) const ADD_FILE: u32 = 7;

pub(crate) const PREVIOUS_LOG: u32 = 9;

pub(crate) const LEAST_LOG: u32 = 10;
/// An added file with its sequence numbers.
pub(crate) const SEQUENCED_FILE: u32 = 100;
/// An added file with its sequence numbers and custom fields.
pub(crate) const CUSTOM_FILE: u32 = 103;

pub(crate) const FAMILY: u32 = 200;

pub(crate) const FAMILY_ADD: u32 = 201;

pub(crate) const FAMILY_DROP: u32 = 202;

pub(crate) const GREATEST_FAMILY: u32 = 203;

pub(crate) const GROUP: u32 = 300;

pub(crate) const WAL_ADD: u32 = 8199;

pub(crate) const WAL_DELETE: u32 = 8200;

/// A field whose tag has this bit may be passed over.
pub(crate) const IGNORED_BIT: u32 = 1 << 13;

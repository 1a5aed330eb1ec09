//! Internal keys and records.
ghost use Rattle.std.specs.Prelude.{◌≡◌, IfOk};

use crate::{Bytes, Memory};
use std::alloc::Global;

/// What a record does to its key.
#[derive(Clone, Copy, Debug, PartialEq, Eq)]
pub enum Kind {
    /// Deletes the key. Its number is 0.
    Deletion,
    /// Puts a value. Its number is 1.
    Value,
    /// Adds an operand for a merge. Its number is 2.
    Merge,
    /// Deletes a key that was put once. Its number is 7.
    SingleDeletion,
    /// Deletes the keys from its key up to its end, the end excluded. Its number is 15.
    RangeDeletion,
}

/// Why an internal key doesn't read.
#[derive(Clone, Copy, Debug, PartialEq, Eq)]
pub enum KeyFault {
    /// Fewer than 8 bytes.
    Short,
    /// The number of a kind that isn't supported: 16 to 31.
    UnsupportedKind(u8),
    /// Any other number that no kind has.
    UnknownKind(u8),
}

/// What a table or a write batch says of a key, in a column family.
#[derive(Debug, Drop)]
pub struct Record {
    pub family: u32,
    /// The user key. The start of a range deletion.
    pub key: Bytes,
    pub sequence: u64,
    pub kind: Kind,
    /// Empty for a deletion in a batch. The end of a range deletion.
    pub value: Bytes,
}

impl Record {
    /// A copy of the record. `Memory` comes only where memory runs out.
    pub fn copy(&self, alloc: Global) -> Result<Record, Memory>
        ensures { IfOk result (λ copy. copy ≡ self.now) }
    {
        Ok(Record {
            family: self.family,
            key: Bytes::copy_of(alloc, self.key.as_slice())?,
            sequence: self.sequence,
            kind: self.kind,
            value: Bytes::copy_of(alloc, self.value.as_slice())?,
        })
    }
}

//! Version edits.

/// Why a version edit doesn't read. The place is that of the field's tag in the edit.
#[derive(Clone, Copy, Debug, PartialEq, Eq)]
pub enum EditFault {
    /// The tag of no field.
    UnknownTag { tag: u32, place: u64 },
    /// The tag of a field that isn't supported.
    UnsupportedTag { tag: u32, place: u64 },
    /// The field with this tag doesn't read, or its value is refused.
    BadField { tag: u32, place: u64 },
}

/// The least and the greatest sequence number in a table.
#[derive(Clone, Copy, Debug, PartialEq, Eq)]
pub struct Seqs {
    pub least: u64,
    pub greatest: u64,
}

use crate::{TableRef, TableWhat, TableWhy};

/// What a table is found to be.
#[derive(Debug, Drop)]
pub enum Status {
    /// It passes every test.
    Good(TableRef),
    /// It is damaged: the first fault, and its place. A fault within a block has the block's offset as place.
    Damaged { why: TableWhy, place: u64 },
    /// Something in it isn't supported.
    Unsupported(TableWhat),
}

/// Why a part of a table can't be read.
#[derive(Clone, Copy, Debug, PartialEq, Eq)]
pub enum WalkErr {
    /// The first fault, and its place.
    Damaged { why: TableWhy, place: u64 },
    /// Something isn't supported.
    Unsupported(TableWhat),
    /// Memory ran out.
    Memory,
}

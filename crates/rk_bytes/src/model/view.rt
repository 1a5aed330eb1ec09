//! What the state of a database is made of, beside its records.
use crate::Bytes;

/// The bounds of a table's file, both included, beyond which its range deletions don't act.
#[derive(Debug, Drop)]
pub struct Cut {
    /// An internal key.
    pub smallest: Bytes,
    /// An internal key.
    pub largest: Bytes,
}

/// A range deletion of a family: of the keys from its start up to its end, the end excluded.
#[derive(Debug, Drop)]
pub struct Tomb {
    pub family: u32,
    pub start: Bytes,
    pub end: Bytes,
    pub sequence: u64,
    /// `None` where it acts on all keys of its range.
    pub cut: Option<Cut>,
}

/// A live family of a state.
#[derive(Debug, Drop)]
pub struct FamilyLine {
    pub id: u32,
    pub name: Bytes,
    /// The least number of a log that may hold records of the family that no table holds.
    pub log: u64,
    /// How many tables the family has.
    pub files: u64,
}

/// How many units of a manifest count for a family.
#[derive(Clone, Copy, Debug, PartialEq, Eq)]
pub struct Point {
    pub family: u32,
    pub at: u64,
}

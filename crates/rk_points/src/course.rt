//! What a family was while the units of a manifest were applied, one after another.
use rk_bytes::Seq;

/// What a family is from so many units on, up to its next turn.
#[derive(Clone, Copy, Debug, PartialEq, Eq)]
pub(crate) struct Turn {
    /// How many units are applied.
    pub at: u64,
    /// The family is live.
    pub live: bool,
    /// All its files are whole.
    pub whole: bool,
}

/// The turns of a family.
#[derive(Debug, Drop)]
pub(crate) struct Course {
    pub family: u32,
    /// By rising number of units, of which no two are the same.
    pub turns: Seq<Turn>,
}

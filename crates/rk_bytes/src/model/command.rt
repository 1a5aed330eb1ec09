//! What the commands are told apart by.
use super::wal::Mode;

/// How a command opens the database.
#[derive(Clone, Copy, Debug, PartialEq, Eq)]
pub enum How {
    /// By the manifest that `CURRENT` names, and with the logs, replayed in this mode.
    Normal(Mode),
    /// By best efforts, without logs.
    Best,
}

/// What is asked of a table.
#[derive(Clone, Copy, Debug, PartialEq, Eq)]
pub enum SstPart {
    /// Whether it is good.
    Check,
    /// Its records and range deletions.
    Scan,
    /// Its properties.
    Properties,
}

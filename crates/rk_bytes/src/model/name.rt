//! The names of a database's files.

/// What a file's name says of the file.
#[derive(Clone, Copy, Debug, PartialEq, Eq)]
pub enum FileName {
    /// `CURRENT`, which names the manifest.
    Current,
    /// A manifest with its number.
    Manifest(u64),
    /// A log with its number.
    Log(u64),
    /// A table with its number.
    Table(u64),
    /// A temporary file with its number.
    Temp(u64),
    /// Below `lost/`.
    Lost,
    /// Any other name.
    Other,
}

/// Why `CURRENT` names no manifest.
#[derive(Clone, Copy, Debug, PartialEq, Eq)]
pub enum CurrentFault {
    /// There is no newline.
    NoNewline,
    /// Something follows the first newline.
    Trailing,
    /// What stands before the newline is no manifest's name.
    NotManifest,
}

//! Why a database isn't opened.
use super::manifest::ManifestFault;
use super::name::CurrentFault;
use super::table::{TableWhat, TableWhy};
use super::wal::WalErr;

/// Why a database isn't opened, but for the last four in the order of the tests.
#[derive(Clone, Copy, Debug, PartialEq, Eq)]
pub enum OpenErr {
    /// There is no `CURRENT`.
    NoCurrent,
    /// `CURRENT` doesn't name a manifest.
    BadCurrent(CurrentFault),
    /// The manifest with this number isn't there.
    NoManifest(u64),
    /// The manifest can't be used.
    Manifest(ManifestFault),
    /// A listed table isn't there.
    MissingTable(u64),
    /// A listed table has another length than the manifest states.
    SizeMismatch { n: u64, stated: u64, found: u64 },
    /// A listed table is damaged at this place.
    DamagedTable { n: u64, why: TableWhy, place: u64 },
    /// A listed table has something that isn't supported.
    UnsupportedTable { n: u64, what: TableWhat },
    /// A record of this table lies outside the bounds that the manifest states.
    OutOfBounds(u64),
    /// A tracked log isn't there.
    MissingLog(u64),
    /// A tracked log is shorter than the manifest says that it was synced.
    ShortLog { n: u64, stated: u64, found: u64 },
    /// The logs can't be replayed.
    Wal(WalErr),
    /// No manifest can be used, which best-efforts opening alone answers.
    NoUsableManifest,
    /// The disk failed, which no definition gives.
    DiskFault,
    /// Want of memory, which no definition gives.
    Memory,
}

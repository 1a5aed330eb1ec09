use rk_bytes::model::Version;
use rk_view::State;

/// What a directory is opened to.
#[derive(Debug, Drop)]
pub struct Opened {
    /// The live families, their records and their range deletions.
    pub state: State,
    /// The last version of the manifest, which states a log number, a next file and a last sequence number.
    pub version: Version,
    /// The number of the manifest, which `CURRENT` names.
    pub manifest: u64,
    /// The sequence number that the next write batch is expected to have.
    pub expected: u64,
    /// The log in which replay stopped, if it did.
    pub stopped: Option<u64>,
    /// The greatest sequence number of a record, 0 with none.
    pub top: u64,
}

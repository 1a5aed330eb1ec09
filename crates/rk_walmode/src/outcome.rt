use rk_bytes::Seq;
use rk_bytes::model::Record;

/// What logs add to the version that they stand on.
#[derive(Debug, Drop)]
pub struct Replayed {
    /// The records of live families that no table holds, in the order of the logs.
    pub records: Seq<Record>,
    /// The sequence number of the batch that is to come next.
    pub expected: u64,
    /// The number of the log in which replay stopped, if it did.
    pub stopped: Option<u64>,
}

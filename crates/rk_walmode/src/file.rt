use rk_bytes::Bytes;

/// A write-ahead log's file.
#[derive(Debug, Drop)]
pub struct LogFile {
    /// The log's number.
    pub number: u64,
    /// All of the file.
    pub bytes: Bytes,
}

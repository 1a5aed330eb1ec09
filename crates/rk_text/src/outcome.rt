use rk_bytes::model::OpenErr;

/// What the opening of a database came to.
#[derive(Clone, Copy, Debug, PartialEq, Eq)]
pub enum Outcome {
    /// It has so many records, and so many keys of which something is shown.
    Counts { records: u64, keys: u64 },
    /// It isn't opened.
    Refused(OpenErr),
}

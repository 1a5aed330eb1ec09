use rk_bytes::model::Kind;

/// What stands in a batch, at the place of its tag.
#[derive(Clone, Copy, Debug)]
pub enum BatchRecord<'a> {
    /// A change of a key. The value of a deletion is empty, and that of a range deletion is its end.
    Change {
        place: u64,
        family: u32,
        kind: Kind,
        key: &'a [u8],
        value: &'a [u8],
        sequence: u64,
    },
    /// Bytes for the log alone.
    LogBytes {
        place: u64,
        bytes: &'a [u8],
    },
    /// Nothing.
    Noop {
        place: u64,
    },
}

use rk_bytes::model::Seqs;

/// What a version edit says. Slices are lent from the edit's bytes.
#[derive(Clone, Copy, Debug, PartialEq, Eq)]
pub enum Field<'a> {
    /// The name of the comparator of user keys.
    Comparator(&'a [u8]),
    /// The least number of a log that may hold changes of the edit's family which no table holds.
    LogNumber(u64),
    /// The number of the next file.
    NextFile(u64),
    /// The greatest sequence number so far.
    LastSequence(u64),
    /// How far the compactions of a level came, as an internal key.
    CompactCursor { level: u32, key: &'a [u8] },
    /// A table is no longer in this level.
    DeleteFile { level: u32, number: u64 },
    /// A table is added.
    AddFile(AddFile<'a>),
    /// The number of the log before, which old databases kept.
    PreviousLog(u64),
    /// The least number of a log that has to be kept, for prepared transactions.
    LeastLog(u64),
    /// The id of the family that the edit speaks of. Without it that is family 0.
    Family(u32),
    /// The edit's family is added, with this name.
    FamilyAdd(&'a [u8]),
    /// The edit's family is dropped.
    FamilyDrop,
    /// The greatest id of a family so far.
    GreatestFamily(u32),
    /// How many more edits of the group come after this one.
    Group(u32),
    /// A log has to be there, and where it is stated, so many of its bytes are synced.
    WalAdd { log: u64, synced: Option<u64> },
    /// Logs with lower numbers needn't be there any longer.
    WalDelete(u64),
    /// A field that readers may pass over.
    Ignored { tag: u32, bytes: &'a [u8] },
}

/// A table that is added.
#[derive(Clone, Copy, Debug, PartialEq, Eq)]
pub struct AddFile<'a> {
    /// At most 255.
    pub level: u32,
    /// The number in the file's name.
    pub number: u64,
    /// The file's length in bytes.
    pub size: u64,
    /// The lower bound, an internal key.
    pub smallest: &'a [u8],
    /// The upper bound, an internal key.
    pub largest: &'a [u8],
    /// The sequence numbers in the table, where they are stated.
    pub seqs: Option<Seqs>,
}

use crate::{Handle, SumKind};

/// What a reader of a table's file needs next.
#[derive(Clone, Copy, Debug, PartialEq, Eq)]
pub enum Want {
    /// The file's last bytes, as many as this.
    Tail(u64),
    /// What `checked_block` answers of this handle and this kind of checksum, in the file's first bytes up
    /// to this end.
    Block {
        handle: Handle,
        end: u64,
        sum: SumKind,
    },
    /// Nothing: all is known.
    Nothing,
}

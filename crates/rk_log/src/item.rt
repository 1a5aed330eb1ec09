ghost use Rattle.std.specs.Prelude.{◌≡◌};
ghost use Rattle.rk_log.specs.Items.{piece_bytes};

use rk_bytes::Bytes;
use rk_bytes::model::{EndKind, GapWhy};

/// The payload of a record.
#[derive(Debug, Drop)]
pub enum Piece<'a> {
    /// It stands in one piece, which is lent.
    Whole(&'a [u8]),
    /// It was split, and is joined in memory of its own.
    Joined(Bytes),
}

impl Piece<'_> {
    /// The payload's bytes.
    pub fn as_slice(&self) -> &[u8]
        ensures { result.now ≡ piece_bytes self.now }
    {
        match self {
            Piece::Whole(bytes) => bytes,
            Piece::Joined(bytes) => bytes.as_slice(),
        }
    }
}

/// What stands in a log, with its place in the file.
#[derive(Debug, Drop)]
pub enum Item<'a> {
    /// A record, at the place of its first header.
    Rec(Piece<'a>, u64),
    /// Something is left out here, and reading goes on behind it.
    Gap(GapWhy, u64),
    /// Reading ends here.
    End(EndKind, u64),
}

/// What a feed answers to a block of a log.
#[derive(Debug, Drop)]
pub enum FeedItem<'b> {
    /// The next item. The same block is to be handed in again.
    Item(Item<'b>),
    /// The block ends no further item: the next block is to be handed in.
    More,
}

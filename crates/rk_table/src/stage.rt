use crate::{Handle, Property, RangeDel, Status, TableRef};
use rk_bytes::Seq;
use rk_bytes::model::Footer;

/// How far the reading of a table has come.
#[derive(Debug, Drop)]
pub(crate) enum Stage {
    /// The last bytes are to be read.
    Tail,
    /// The metaindex is to be read.
    Metaindex {
        footer: Footer,
    },
    /// The block of properties is to be read, and the block of range deletions, if there is one, after it.
    Properties {
        footer: Footer,
        at: Handle,
        ranges_at: Option<Handle>,
    },
    /// The block of range deletions is to be read.
    Ranges {
        footer: Footer,
        properties: Seq<Property>,
        at: Handle,
    },
    /// The index is to be read.
    Index {
        footer: Footer,
        properties: Seq<Property>,
        ranges: Seq<RangeDel>,
    },
    /// The data block with this number is to be read, of a table of which this is known: its smallest and
    /// its largest key so far, and its entries and its greatest sequence number so far, are those of the
    /// data records.
    Data {
        footer: Footer,
        table: TableRef,
        number: usize,
    },
    /// All is known.
    Ended(Status),
}

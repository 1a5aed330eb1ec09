//! What a table holds beside its data: its footer, the trailers of its blocks, its index, its properties
//! and its range deletions (RocksDB's wiki, "Rocksdb BlockBasedTable Format").
#![tactic(auto)]

mod delta;
mod footer;
mod handle;
mod index;
mod properties;
mod ranges;
mod trailer;
mod walk;
mod want;

pub use footer::read_footer;
pub use handle::read_handle;
pub use index::read_index;
pub use properties::{PropFault, read_properties};
pub use ranges::read_ranges;
pub use rk_bytes::model::{
    Footer, FooterFault, Handle, IndexEntry, IndexFault, Property, RangeDel, RangeFault, SumKind,
    TrailerFault,
};
pub use trailer::checked_block;
pub use want::Want;

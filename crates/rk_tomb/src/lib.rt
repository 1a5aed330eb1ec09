//! Range deletions, cut to the bounds of the tables that hold them, and which of them covers a record
//! (RocksDB's db/range_del_aggregator.cc and db/range_tombstone_fragmenter.cc).
#![tactic(auto)]

mod edge;
mod index;
mod lookup;
mod set;
mod span;

pub use rk_bytes::model::{Cut, Tomb};
pub use set::TombSet;

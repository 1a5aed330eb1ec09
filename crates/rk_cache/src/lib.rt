//! The blocks of tables, read from a disk by way of a cache that keeps some of them, and a table's status by
//! its blocks.
#![tactic(auto)]

mod cache;
mod fault;
mod key;
mod read;
mod status;

pub use cache::BlockCache;
pub use fault::{CacheFault, SourceErr};
pub use rk_table::{Handle, Status, SumKind, TrailerFault};

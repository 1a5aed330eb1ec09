//! Blocks of a table. Their entries are read from the block's bytes, without a copy (RocksDB's wiki,
//! "Rocksdb BlockBasedTable Format"; table/block_based/block_builder.cc).
#![tactic(auto)]

mod builder;
mod entry;
mod history;
mod key_buf;
mod part;
mod restarts;
mod tested;
mod view;

pub use builder::BlockBuilder;
pub use entry::RawEntry;
pub use history::History;
pub use key_buf::KeyBuf;
pub use part::{BlockParts, block_parts};
pub use restarts::Restarts;
pub use rk_bytes::model::BlockFault;
pub use tested::TestedEntries;
pub use view::{BlockView, Entries};

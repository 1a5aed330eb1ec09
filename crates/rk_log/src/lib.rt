//! The records of a write-ahead log or a manifest: read from the bytes of its file, which are handed
//! in whole or block by block, and written.
#![tactic(auto)]

mod block;
mod feed;
mod fragment;
mod header;
mod item;
mod joining;
mod reader;
mod writer;
mod written;

pub use block::BLOCK_LEN;
pub use feed::LogFeed;
pub use item::{FeedItem, Item, Piece};
pub use reader::LogReader;
pub use rk_bytes::model::{EndKind, GapWhy};
pub use writer::LogWriter;

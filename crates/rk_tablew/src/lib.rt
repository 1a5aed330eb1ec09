//! Tables are written (RocksDB's table/block_based/block_based_table_builder.cc).
#![tactic(auto)]

mod data;
mod end;
mod properties;
mod stored;
mod table;
mod writer;

pub use writer::TableWriter;

//! What a table is found to be, block by block, and its data records (RocksDB's wiki, "Rocksdb
//! BlockBasedTable Format"; table/block_based/block_based_table_reader.cc).
#![tactic(auto)]

mod bounds;
mod data;
mod fault;
mod front;
mod head;
mod iter;
mod properties;
mod records;
mod rows;
mod run;
mod stage;
mod status;
mod tail;
mod walk;
mod whole;

pub use iter::TableIter;
pub use rk_bytes::model::{Record, TableRef, TableWhat, TableWhy};
pub use rk_meta::{Handle, IndexEntry, Property, RangeDel, SumKind, TrailerFault, Want};
pub use rows::{block_records, block_records_over};
pub use run::StatusRun;
pub use status::{Status, WalkErr};
pub use whole::table_status;

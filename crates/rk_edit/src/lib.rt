//! Version edits: what a record of a manifest changes, read field by field (RocksDB's
//! db/version_edit.cc and db/wal_edit.cc).
#![tactic(auto)]

mod before;
mod fields;
mod file;
mod tag;
mod tracked;
mod value;
mod view;
mod write;

pub use fields::{AddFile, Field};
pub use rk_bytes::model::{EditFault, Seqs};
pub use view::EditView;
pub use write::write_field;

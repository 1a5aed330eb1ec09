//! The names of a database's files, and the text of `CURRENT` (RocksDB's file/filename.cc). A name
//! counts only in the exact form in which it is printed.
#![tactic(auto)]

mod current;
mod name;
mod number;

pub use current::read_current;
pub use name::{read_name, write_name};
pub use rk_bytes::model::{CurrentFault, FileName};

//! The state of a database that is opened, and what it shows of a key (RocksDB's table/get_context.cc,
//! db/db_iter.cc and db/memtable.cc).
#![tactic(auto)]

mod answer;
mod cursor;
mod family;
mod lead;
mod merge;
mod next;
mod parts;
mod place;
mod run;
mod runs;
mod seek;
mod sort;
mod source;
mod state;
mod walk;

pub use answer::{Answer, Operands, view_get, view_records};
pub use rk_bytes::model::{Cut, FamilyLine};
pub use rk_ikey::{Kind, Record};
pub use state::{State, StateErr};
pub use walk::{Row, ViewIter, view_iter};

#[cfg(test)]
mod tests;

//! A table on a disk, opened, and its data records block by block, or its lines as one text.
#![tactic(auto)]

mod error;
mod lines;
mod open;
mod records;

pub use error::SstErr;
pub use lines::sst_lines;
pub use open::{OpenTable, open_sized, open_table};
pub use rk_bytes::model::SstPart;
pub use rk_table::{Record, TableRef, TableWhat, TableWhy};

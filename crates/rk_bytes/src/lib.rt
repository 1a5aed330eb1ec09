//! Bytes, lists and texts that a contract sees as lists, a cursor over bytes, and `model`, the
//! definitions of RocksDB's formats that every contract of this repository cites.
#![tactic(auto)]

mod bytes;
mod cursor;
mod memory;
pub mod model;
mod put;
mod seq;
mod text;
mod varint;

pub use bytes::Bytes;
pub use cursor::Cursor;
pub use memory::Memory;
pub use model::NumFault;
pub use put::{put_fixed32, put_fixed64, put_prefixed, put_varint32, put_varint64};
pub use seq::Seq;
pub use text::Text;

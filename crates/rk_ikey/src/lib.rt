//! Internal keys, which a user key, a sequence number and a kind make up (RocksDB's db/dbformat.h), and
//! records, which say something of a key.
#![tactic(auto)]

mod key;
mod place;

pub use key::{ParsedKey, TOP, cmp_keys, internal_key, kind_number, parse_key, split_key};
pub use place::same_place;
pub use rk_bytes::model::{KeyFault, Kind, Record};

//! The checksums of RocksDB's formats: CRC32C and what is stored in its place, XXH32 and XXH64 with
//! seed 0, and what is stored after a block. Each is the sum that the definitions of `rk_bytes` give;
//! none takes memory or refuses.
#![tactic(auto)]

mod block;
mod crc;
mod hash32;
mod hash64;
mod masked;
mod words;

pub use block::block_sum;
pub use crc::{crc32c, crc32c_extend};
pub use hash32::xxh32;
pub use hash64::xxh64;
pub use masked::{mask, unmask};
pub use rk_bytes::model::SumKind;

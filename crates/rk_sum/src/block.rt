//! What is stored after a block of a table (RocksDB's table/format.h).
ghost use Rattle.std.specs.Prelude.{◌≡◌};
ghost use Rattle.rk_bytes.specs.Model.Checksums.{block_sum};

use crate::crc::{crc32c, crc32c_extend};
use crate::hash32::xxh32_with_last;
use crate::hash64::xxh64_with_last;
use crate::masked::mask;
use rk_bytes::model::SumKind;

/// The checksum that is stored after a block: of its bytes and then of the byte that says how it is
/// compressed. It is 0 where the table has no checksums, and of an XXH64 the low half.
pub fn block_sum(kind: SumKind, block: &[u8], type_byte: u8) -> u32
    ensures { result ≡ block_sum kind block.now type_byte }
{
    match kind {
        SumKind::NoSum => 0,
        SumKind::Crc32c => mask(crc32c_extend(crc32c(block), &[type_byte])),
        SumKind::Xxh32 => xxh32_with_last(block, type_byte),
        SumKind::Xxh64 => (xxh64_with_last(block, type_byte) % (1 << 32)) as u32,
    }
}

//! What is stored in place of a CRC32C, since the sum of bytes that contain sums themselves is a weak
//! check (`util/crc32c.h`).
ghost use Rattle.std.specs.Prelude.{◌≡◌};
ghost use Rattle.rk_bytes.specs.Model.Checksums.{mask, unmask};

/// What a rotated sum is raised by.
const MASK_DELTA: u32 = 0xA282_EAD8;

/// What is stored in place of a sum.
pub fn mask(sum: u32) -> u32
    ensures { result ≡ mask sum }
{
    sum.rotate_right(15).wrapping_add(MASK_DELTA)
}

/// The sum in whose place this is stored.
pub fn unmask(stored: u32) -> u32
    ensures { result ≡ unmask stored }
{
    stored.wrapping_sub(MASK_DELTA).rotate_right(17)
}

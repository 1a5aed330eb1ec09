//! Varints: numbers in groups of 7 bits, the least significant first.
ghost use Rattle.std.specs.Prelude.{◌≡◌, ℕ, ◌+◌, ◌^◌, ◌<◌, ◌≤◌, IfOk, take, length};
ghost use Rattle.rk_bytes.specs.Model.Numbers.{varint_at, varint_of};
ghost use Rattle.rk_bytes.specs.Reading.{found_at};

use crate::model::NumFault;

/// The most bytes of a varint of 64 bits.
pub(crate) const MOST_BYTES: usize = 10;

/// The number at the front of the bytes, of at most so many bytes, and how many they are.
pub(crate) fn read_varint(bytes: &[u8], most: usize) -> Result<(u64, usize), NumFault>
    requires { most ≤ 10 }
    ensures value { found_at bytes.now result ≡ varint_at most 64 bytes.now }
    ensures within { IfOk result (λ found. found.1 ≤ length bytes.now) }
{
    let mut value = 0;
    for i in 0..most {
        let Some(byte) = bytes.get(i) else {
            return Err(NumFault::Cut);
        };
        let group = u64::from(*byte % 128);
        if i == 9 && group > 1 {
            return Err(NumFault::TooLarge);
        }
        value += group << (7 * i as u32);
        if *byte < 128 {
            return Ok((value, i + 1));
        }
    }
    Err(NumFault::TooLarge)
}

/// The shortest spelling of a number, which fills the front of the array, and how many bytes it has.
pub(crate) fn spell_varint(value: u64) -> ([u8; MOST_BYTES], usize)
    ensures len { result.1 ≤ 10 }
    ensures spelled { take result.1 result.0 ≡ varint_of value }
{
    let mut bytes = [0; MOST_BYTES];
    let mut left = value;
    let mut len = 0;
    while left >= 128 {
        bytes[len] = (left % 128 + 128) as u8;
        left /= 128;
        len += 1;
    }
    bytes[len] = left as u8;
    (bytes, len + 1)
}

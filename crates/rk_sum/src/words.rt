//! Words of bytes, the least significant byte first, and bytes with one more after them.
ghost use Rattle.std.specs.Prelude.{◌≡◌, ◌+◌, ◌<◌, [], ◌∷◌, ◌++◌, length, take};
ghost use Rattle.rk_bytes.specs.Model.Numbers.{little_endian};

/// The number that these four bytes spell.
#[inline(always)]
pub(crate) fn word(bytes: &[u8; 4]) -> u32
    ensures { result ≡ little_endian bytes.now }
{
    u32::from_le_bytes(*bytes)
}

/// The number that these eight bytes spell.
#[inline(always)]
pub(crate) fn long_word(bytes: &[u8; 8]) -> u64
    ensures { result ≡ little_endian bytes.now }
{
    u64::from_le_bytes(*bytes)
}

/// An array that begins with these bytes and then this last one.
pub(crate) fn with_last<const N: usize>(bytes: &[u8], last: u8) -> [u8; N]
    requires { length bytes.now < N }
    ensures { take (length bytes.now + 1) result ≡ bytes.now ++ last ∷ [] }
{
    let mut array = [0; N];
    array[..bytes.len()].copy_from_slice(bytes);
    array[bytes.len()] = last;
    array
}

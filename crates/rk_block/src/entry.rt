//! One entry of a block, read at the front of bytes.
ghost use Rattle.std.specs.Prelude.{◌≡◌, ◌≤◌, ℕ, List, length, IfOk};
ghost use Rattle.rk_block.specs.Raw.{lengths_at, lengths_read, entry_read, entry_or_none};

use rk_bytes::{Cursor, NumFault};

/// An entry as it stands in its block. Its key is the first `shared` bytes of the key before it, and
/// then `rest`.
#[derive(Clone, Copy, Debug)]
pub struct RawEntry<'a> {
    /// How many bytes the key shares with the key before it. Where it shares none, the rest is the key.
    pub shared: usize,
    /// The bytes of the key after those.
    pub rest: &'a [u8],
    pub value: &'a [u8],
}

/// The lengths that an entry begins with.
#[derive(Clone, Copy)]
struct Lengths {
    shared: u32,
    rest: u32,
    value: u32,
    /// How many bytes spell the three.
    spelled: usize,
}

/// The entry at the front of the bytes, and how many bytes it has. Whether the key before it is long
/// enough isn't looked at.
pub(crate) fn read_entry(bytes: &[u8]) -> Result<(RawEntry<'_>, usize), NumFault>
    ensures entry { (place : ℕ) (key : List ℕ) → entry_read place key bytes.now result ≡ entry_or_none place key bytes.now }
    ensures some { IfOk result (λ read. 3 ≤ read.1) }
    ensures rest { IfOk result (λ read. length read.0.rest.now ≤ read.1) }
    ensures within { IfOk result (λ read. read.1 ≤ length bytes.now) }
{
    let lengths = read_lengths(bytes)?;
    let rest_end = lengths.spelled + lengths.rest as usize;
    let end = rest_end + lengths.value as usize;
    if bytes.len() < end {
        return Err(NumFault::Cut);
    }
    let entry = RawEntry {
        shared: lengths.shared as usize,
        rest: &bytes[lengths.spelled..rest_end],
        value: &bytes[rest_end..end],
    };
    Ok((entry, end))
}

/// The lengths at the front of the bytes. Mostly each is one byte.
fn read_lengths(bytes: &[u8]) -> Result<Lengths, NumFault>
    ensures lengths { lengths_read bytes.now result ≡ lengths_at bytes.now }
    ensures some { IfOk result (λ lengths. 3 ≤ lengths.spelled) }
    ensures within { IfOk result (λ lengths. lengths.spelled ≤ length bytes.now) }
{
    match bytes {
        [shared, rest, value, ..] if *shared < 128 && *rest < 128 && *value < 128 => Ok(Lengths {
            shared: u32::from(*shared),
            rest: u32::from(*rest),
            value: u32::from(*value),
            spelled: 3,
        }),
        _ => read_long_lengths(bytes),
    }
}

/// The lengths at the front of the bytes, each of any number of bytes.
fn read_long_lengths(bytes: &[u8]) -> Result<Lengths, NumFault>
    ensures lengths { lengths_read bytes.now result ≡ lengths_at bytes.now }
    ensures some { IfOk result (λ lengths. 3 ≤ lengths.spelled) }
    ensures within { IfOk result (λ lengths. lengths.spelled ≤ length bytes.now) }
{
    let mut cursor = Cursor::new(bytes);
    let shared = cursor.varint32()?;
    let rest = cursor.varint32()?;
    let value = cursor.varint32()?;
    Ok(Lengths {
        shared,
        rest,
        value,
        spelled: cursor.place(),
    })
}

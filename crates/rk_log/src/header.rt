//! What the header of a fragment says (RocksDB's wiki, "Write Ahead Log File Format").
ghost use Rattle.std.specs.Prelude.{◌≡◌, ◌≤◌, ◌+◌, length};
ghost use Rattle.rk_bytes.specs.Model.LogMarks.{LogFile, header_len, fragment_len, stored_number, is_recyclable, has_number, has_right_sum, is_zero_header, is_of_another_life, is_unsupported};

/// The length of a header, in bytes: the masked checksum (4), the payload's length (2) and the type.
pub(crate) const HEADER_LEN: usize = 7;

/// The length of a header that holds the log's number (4) too.
pub(crate) const NUMBERED_HEADER_LEN: usize = 11;

/// How many numbers the four bytes of a header tell apart.
const NUMBERS: u64 = 1 << 32;

/// A recyclable record: full, first, middle or last (5 to 8).
pub(crate) fn is_recyclable(kind: u8) -> bool
    ensures { result ≡ is_recyclable kind }
{
    matches!(kind, 5..=8)
}

/// Whether a header of this type holds the log's number: a recyclable record's, and the sizes of user
/// timestamps (11).
fn has_number(kind: u8) -> bool
    ensures { result ≡ has_number kind }
{
    is_recyclable(kind) || kind == 11
}

/// The length of a header of this type.
pub(crate) fn header_len(kind: u8) -> usize
    ensures { result ≡ header_len kind }
{
    if has_number(kind) {
        NUMBERED_HEADER_LEN
    } else {
        HEADER_LEN
    }
}

/// The length of the fragment whose header stands first: that of the header and of its payload.
pub(crate) fn fragment_len(bytes: &[u8]) -> usize
    requires { HEADER_LEN ≤ length bytes.now }
    ensures { result ≡ fragment_len bytes.now }
{
    header_len(bytes[6]) + usize::from(u16::from_le_bytes([bytes[4], bytes[5]]))
}

/// The header stands for nothing: its type and its length are 0.
pub(crate) fn is_zero_header(bytes: &[u8]) -> bool
    requires { HEADER_LEN ≤ length bytes.now }
    ensures { result ≡ is_zero_header bytes.now }
{
    bytes[6] == 0 && u16::from_le_bytes([bytes[4], bytes[5]]) == 0
}

/// The low 32 bits of a log's number, behind the first seven bytes of a header that holds it.
fn stored_number(bytes: &[u8]) -> u32
    requires { NUMBERED_HEADER_LEN ≤ length bytes.now }
    ensures { result ≡ stored_number bytes.now }
{
    u32::from_le_bytes([bytes[7], bytes[8], bytes[9], bytes[10]])
}

/// Whether the fragment was written to another log than the one with this number: its header holds
/// another number, or none in a recycled file.
pub(crate) fn is_of_another_life(number: u64, recycled: bool, bytes: &[u8]) -> bool
    requires header { HEADER_LEN ≤ length bytes.now }
    requires within { fragment_len bytes.now ≤ length bytes.now }
    ensures { result ≡ is_of_another_life (record { number = number; recycled = recycled }) bytes.now }
{
    let kind = bytes[6];
    has_number(kind) && u64::from(stored_number(bytes)) != number % NUMBERS
        || recycled && matches!(kind, 1..=4)
}

/// Whether the header's checksum is that of the fragment from its type on. `len` is the fragment's
/// length.
pub(crate) fn has_right_sum(bytes: &[u8], len: usize) -> bool
    requires header { HEADER_LEN ≤ length bytes.now }
    requires len { len ≡ fragment_len bytes.now }
    requires within { len ≤ length bytes.now }
    ensures { result ≡ has_right_sum bytes.now }
{
    let stored = u32::from_le_bytes([bytes[0], bytes[1], bytes[2], bytes[3]]);
    stored == rk_sum::mask(rk_sum::crc32c(&bytes[6..len]))
}

/// Compression (9), the sizes of user timestamps (10 and 11), and the types with the top bit (128 to
/// 255), which this project refuses.
pub(crate) fn is_unsupported(kind: u8) -> bool
    ensures { result ≡ is_unsupported kind }
{
    matches!(kind, 9..=11 | 128..)
}

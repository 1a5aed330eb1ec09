//! CRC32C, eight bytes at a time by tables.
ghost use Rattle.std.specs.Prelude.{◌≡◌, ℕ, List, ◌++◌, ◌+◌, ◌*◌, ◌<◌, ◌≤◌};
ghost use Rattle.rk_bytes.specs.Model.Checksums.{crc_bits, crc_bytes, crc32c, crc32c_extended};

mod tables;

use tables::TABLES;

/// The CRC32C of the bytes (polynomial 0x1EDC6F41, reflected).
#[tactic(auto, unfolding(rk_bytes::specs::Model::Checksums::crc32c))]
pub fn crc32c(bytes: &[u8]) -> u32
    ensures { result ≡ crc32c bytes.now }
{
    after_bytes(0xFFFF_FFFF, bytes) ^ 0xFFFF_FFFF
}

/// The CRC32C of a front, whose sum is `crc`, and of the bytes after it.
#[tactic(auto, unfolding(rk_bytes::specs::Model::Checksums::crc32c_extended))]
pub fn crc32c_extend(crc: u32, bytes: &[u8]) -> u32
    ensures value { result ≡ crc32c_extended crc bytes.now }
    ensures whole { (front : List ℕ) → crc ≡ crc32c front → result ≡ crc32c (front ++ bytes.now) }
{
    after_bytes(crc ^ 0xFFFF_FFFF, bytes) ^ 0xFFFF_FFFF
}

/// The register after these bytes, taken eight at a time.
fn after_bytes(mut register: u32, bytes: &[u8]) -> u32
    ensures { result ≡ crc_bytes register bytes.now }
{
    let mut rest = bytes;
    while let [b0, b1, b2, b3, b4, b5, b6, b7, after @ ..] = rest {
        register = after_eight(register, [*b0, *b1, *b2, *b3, *b4, *b5, *b6, *b7]);
        rest = after;
    }
    after_few(register, rest)
}

/// The register after these bytes, taken one at a time.
fn after_few(mut register: u32, bytes: &[u8]) -> u32
    ensures { result ≡ crc_bytes register bytes.now }
{
    for byte in bytes {
        let mixed = register ^ u32::from(*byte);
        let [low, ..] = mixed.to_le_bytes();
        register = after_byte(low, 0) ^ mixed >> 8;
    }
    register
}

/// The register after these eight bytes. Their second half comes first, since it does not wait for
/// the register.
#[inline(always)]
fn after_eight(register: u32, bytes: [u8; 8]) -> u32
    ensures { result ≡ crc_bytes register bytes }
{
    let [b0, b1, b2, b3, b4, b5, b6, b7] = bytes;
    let first = u32::from_le_bytes([b0, b1, b2, b3]);
    let second = u32::from_le_bytes([b4, b5, b6, b7]);
    after_word(second, 0) ^ after_word(register ^ first, 4)
}

/// What a register that holds this word is once the word and so many bytes of zeros have gone through
/// it.
#[inline(always)]
fn after_word(word: u32, zeros: usize) -> u32
    requires { zeros ≤ 4 }
    ensures { result ≡ crc_bits (8 * (zeros + 4)) word }
{
    let [b0, b1, b2, b3] = word.to_le_bytes();
    after_byte(b0, zeros + 3)
        ^ after_byte(b1, zeros + 2)
        ^ after_byte(b2, zeros + 1)
        ^ after_byte(b3, zeros)
}

/// What a register that holds this byte is once the byte and so many bytes of zeros have gone through
/// it.
#[inline(always)]
fn after_byte(byte: u8, zeros: usize) -> u32
    requires { zeros < 8 }
    ensures { result ≡ crc_bits (8 * (zeros + 1)) byte }
{
    TABLES[zeros][byte as usize]
}

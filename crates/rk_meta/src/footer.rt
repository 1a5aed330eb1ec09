ghost use Rattle.std.specs.Prelude.{◌≡◌, ◌≤◌, ◌-◌, ℕ, length, drop};
ghost use Rattle.rk_bytes.specs.Model.Numbers.{little_endian};
ghost use Rattle.rk_bytes.specs.Model.TableFooter.{footer_of, magic_of, sum_kind, footer_with, newer_footer};

use crate::{Footer, FooterFault, SumKind, read_handle};
use rk_bytes::Cursor;

/// The length of a legacy footer in bytes: its handles and the magic number.
const LEGACY_LEN: usize = 48;

/// The length of a newer footer in bytes, which also states a checksum kind and a version.
const NEWER_LEN: usize = 53;

/// How many bytes the handles have, with what fills them up.
const HANDLES_LEN: usize = 40;

/// How many bytes the magic number has.
const MAGIC_LEN: usize = 8;

const LEGACY_MAGIC: u64 = 0xdb4775248b80fb57;

const NEWER_MAGIC: u64 = 0x88e241b785f4cff7;

/// Reads the footer at the end of a table's bytes, or gives the first fault. The footer's start is its place in
/// these bytes. Takes no memory.
pub fn read_footer(bytes: &[u8]) -> Result<Footer, FooterFault>
    ensures { result ≡ footer_of bytes.now }
{
    if bytes.len() < LEGACY_LEN {
        return Err(FooterFault::FooterShort);
    }
    let magic = magic_of(bytes);
    if magic == NEWER_MAGIC {
        if bytes.len() < NEWER_LEN {
            return Err(FooterFault::FooterShort);
        }
        let (table, footer) = bytes.split_at(bytes.len() - NEWER_LEN);
        return read_newer(table.len(), footer);
    }
    if magic == LEGACY_MAGIC {
        let (table, footer) = bytes.split_at(bytes.len() - LEGACY_LEN);
        return read_handles(0, SumKind::Crc32c, table.len(), footer);
    }
    Err(FooterFault::BadMagic)
}

/// The magic number, which the last bytes spell.
fn magic_of(bytes: &[u8]) -> u64
    requires { LEGACY_LEN ≤ length bytes.now }
    ensures { result ≡ magic_of bytes.now }
{
    let magic = &bytes[bytes.len() - MAGIC_LEN..];
    u64::from_le_bytes([
        magic[0], magic[1], magic[2], magic[3], magic[4], magic[5], magic[6], magic[7],
    ])
}

/// Reads a newer footer, which starts at this place: the checksum kind, the handles and the version.
fn read_newer(start: usize, footer: &[u8]) -> Result<Footer, FooterFault>
    requires { length footer.now ≡ NEWER_LEN }
    ensures { result ≡ newer_footer start footer.now }
{
    let version = u32::from_le_bytes([footer[41], footer[42], footer[43], footer[44]]);
    if !matches!(version, 1..=5) {
        return Err(FooterFault::UnsupportedVersion(version));
    }
    let sum = sum_kind(footer[0])?;
    read_handles(version, sum, start, &footer[1..])
}

/// The checksum kind with this number.
fn sum_kind(number: u8) -> Result<SumKind, FooterFault>
    ensures { result ≡ sum_kind number }
{
    match number {
        0 => Ok(SumKind::NoSum),
        1 => Ok(SumKind::Crc32c),
        2 => Ok(SumKind::Xxh32),
        3 => Ok(SumKind::Xxh64),
        _ => Err(FooterFault::UnsupportedChecksum(number)),
    }
}

/// Reads the handles at the front of the bytes, which make a footer with the other parts.
fn read_handles(
    version: u32,
    sum: SumKind,
    start: usize,
    bytes: &[u8],
) -> Result<Footer, FooterFault>
    requires { HANDLES_LEN ≤ length bytes.now }
    ensures { result ≡ footer_with version sum start bytes.now }
{
    let mut cursor = Cursor::new(&bytes[..HANDLES_LEN]);
    let Ok(metaindex) = read_handle(&mut cursor) else {
        return Err(FooterFault::BadHandle);
    };
    let Ok(index) = read_handle(&mut cursor) else {
        return Err(FooterFault::BadHandle);
    };
    Ok(Footer {
        version,
        sum,
        metaindex,
        index,
        start: start as u64,
    })
}

//! The fragments of a log that is written.
ghost use Rattle.std.specs.Prelude.{◌≡◌, ◌<◌, ◌≤◌, ◌^◌, ◌++◌, length, OnOk, OnErr, Some, None};
ghost use Rattle.rk_bytes.specs.Model.WrittenLogs.{fragment_bytes};
ghost use Rattle.rk_log.specs.Writing.{Extends};

use crate::header::{HEADER_LEN, NUMBERED_HEADER_LEN};
use rk_bytes::Memory;

/// What is added to the type of a legacy fragment for that of the recyclable one of its kind.
const RECYCLABLE: u8 = 4;

/// Puts the bytes at the end, or where memory runs out changes nothing.
pub(crate) fn append(out: &mut Vec<u8>, bytes: &[u8]) -> Result<(), Memory>
    ensures ok { OnOk result (out.new.items ≡ out.old.items ++ bytes.now) }
    ensures err { OnErr result (out.new.items ≡ out.old.items) }
{
    out.extend_from_slice(bytes)?;
    Ok(())
}

/// The legacy header of a fragment of this type.
fn legacy_header(kind: u8, payload: &[u8]) -> [u8; HEADER_LEN]
    requires { length payload.now < 2 ^ 16 }
    ensures { result ++ payload.now ≡ fragment_bytes None kind payload.now }
{
    let sum = rk_sum::crc32c_extend(rk_sum::crc32c(&[kind]), payload);
    let [s0, s1, s2, s3] = rk_sum::mask(sum).to_le_bytes();
    let [l0, l1] = (payload.len() as u16).to_le_bytes();
    [s0, s1, s2, s3, l0, l1, kind]
}

/// The recyclable header of a fragment of the kind of this legacy type, with the low 32 bits of the
/// log's number.
fn numbered_header(kind: u8, number: u64, payload: &[u8]) -> [u8; NUMBERED_HEADER_LEN]
    requires kind { kind ≤ 4 }
    requires len { length payload.now < 2 ^ 16 }
    ensures { result ++ payload.now ≡ fragment_bytes (Some number) kind payload.now }
{
    let kind = kind + RECYCLABLE;
    let [n0, n1, n2, n3, ..] = number.to_le_bytes();
    let sum = rk_sum::crc32c_extend(rk_sum::crc32c(&[kind, n0, n1, n2, n3]), payload);
    let [s0, s1, s2, s3] = rk_sum::mask(sum).to_le_bytes();
    let [l0, l1] = (payload.len() as u16).to_le_bytes();
    [s0, s1, s2, s3, l0, l1, kind, n0, n1, n2, n3]
}

/// Puts a fragment of the kind of this legacy type at the end.
pub(crate) fn write_fragment(
    out: &mut Vec<u8>,
    number: Option<u64>,
    kind: u8,
    payload: &[u8],
) -> Result<(), Memory>
    requires kind { kind ≤ 4 }
    requires len { length payload.now < 2 ^ 16 }
    ensures { Extends out.old.items (fragment_bytes number kind payload.now) result out.new.items }
{
    match number {
        None => append_both(out, &legacy_header(kind, payload), payload),
        Some(number) => append_both(out, &numbered_header(kind, number, payload), payload),
    }
}

/// Puts these bytes and then those at the end.
fn append_both(out: &mut Vec<u8>, front: &[u8], back: &[u8]) -> Result<(), Memory>
    ensures { Extends out.old.items (front.now ++ back.now) result out.new.items }
{
    append(out, front)?;
    append(out, back)
}

ghost use Rattle.std.specs.Prelude.{◌≡◌, ◌≤◌, ◌-◌, length, take, drop, IfOk};
ghost use Rattle.rk_bytes.specs.Model.Numbers.{little_endian};
ghost use Rattle.rk_bytes.specs.Model.InternalKey.{kind_number, kind_of, kind_fault, packed_of, internal_key, user_key, packed, key_cmp, key_parts};
ghost use Rattle.rk_ikey.specs.Parsed.{parsed, kind_or_fault};

use crate::{KeyFault, Kind};
use rk_bytes::{Bytes, Memory};
use std::alloc::Global;
use std::cmp::Ordering;

/// The greatest sequence number.
pub const TOP: u64 = (1 << 56) - 1;

/// How many bytes follow the user key in an internal key: the number of its sequence number and kind.
const NUMBER_LEN: usize = 8;

/// What an internal key is made of.
#[derive(Clone, Copy, Debug)]
pub struct ParsedKey<'a> {
    pub user: &'a [u8],
    pub sequence: u64,
    pub kind: Kind,
}

/// Reads an internal key. `Short` comes where there are fewer than 8 bytes, `UnsupportedKind` at the
/// number of a kind that isn't supported, and `UnknownKind` at any other number that no kind has.
/// Takes no memory.
pub fn parse_key(bytes: &[u8]) -> Result<ParsedKey<'_>, KeyFault>
    ensures { parsed result ≡ key_parts bytes.now }
{
    if bytes.len() < NUMBER_LEN {
        return Err(KeyFault::Short);
    }
    let (user, packed) = split_key(bytes);
    match kind_with(packed % 256) {
        Ok(kind) => Ok(ParsedKey {
            user,
            sequence: packed / 256,
            kind,
        }),
        Err(fault) => Err(fault),
    }
}

/// How two internal keys of at least 8 bytes are ordered: user keys rise by their bytes, and of one
/// user key the numbers fall. The kinds' meaning isn't looked at. Takes no memory.
pub fn cmp_keys(a: &[u8], b: &[u8]) -> Ordering
    requires left { NUMBER_LEN ≤ length a.now }
    requires right { NUMBER_LEN ≤ length b.now }
    ensures { result ≡ key_cmp a.now b.now }
{
    let (a_user, a_packed) = split_key(a);
    let (b_user, b_packed) = split_key(b);
    a_user.cmp(b_user).then(b_packed.cmp(&a_packed))
}

/// The internal key of a user key, a sequence number of at most `TOP` and a kind. `Memory` comes only
/// where memory runs out.
#[tactic(auto, unfolding(rk_bytes::specs::Model::InternalKey::internal_key))]
pub fn internal_key(alloc: Global, user: &[u8], sequence: u64, kind: Kind) -> Result<Bytes, Memory>
    requires { sequence ≤ TOP }
    ensures { IfOk result (λ key. key ≡ internal_key user.now sequence kind) }
{
    let packed = pack(sequence, kind);
    let mut key = Vec::with_capacity(alloc, user.len() + NUMBER_LEN)?;
    key.extend_from_slice(user)?;
    key.extend_from_slice(&packed.to_le_bytes())?;
    Ok(Bytes::from_vec(key))
}

/// The number that stands for the kind in an internal key.
pub fn kind_number(kind: Kind) -> u8
    ensures { result ≡ kind_number kind }
{
    match kind {
        Kind::Deletion => 0,
        Kind::Value => 1,
        Kind::Merge => 2,
        Kind::SingleDeletion => 7,
        Kind::RangeDeletion => 15,
    }
}

/// The number of a sequence number and a kind.
fn pack(sequence: u64, kind: Kind) -> u64
    requires { sequence ≤ TOP }
    ensures { result ≡ packed_of sequence kind }
{
    sequence * 256 + u64::from(kind_number(kind))
}

/// The user key of an internal key of at least 8 bytes, and the number after it, which its sequence
/// number and the number of its kind make up: 256 times the one and the other. Takes no memory.
pub fn split_key(bytes: &[u8]) -> (&[u8], u64)
    requires { NUMBER_LEN ≤ length bytes.now }
    ensures user { result.0.now ≡ user_key bytes.now }
    ensures packed { result.1 ≡ packed bytes.now }
{
    let (user, number) = bytes.split_at(bytes.len() - NUMBER_LEN);
    (user, eight_bytes(number))
}

/// The number that eight bytes spell, the least significant first.
fn eight_bytes(bytes: &[u8]) -> u64
    requires { length bytes.now ≡ NUMBER_LEN }
    ensures { result ≡ little_endian bytes.now }
{
    u64::from_le_bytes([
        bytes[0], bytes[1], bytes[2], bytes[3], bytes[4], bytes[5], bytes[6], bytes[7],
    ])
}

/// The kind with this number, or the fault.
fn kind_with(number: u64) -> Result<Kind, KeyFault>
    requires { number ≤ 255 }
    ensures { result ≡ kind_or_fault number }
{
    match number as u8 {
        0 => Ok(Kind::Deletion),
        1 => Ok(Kind::Value),
        2 => Ok(Kind::Merge),
        7 => Ok(Kind::SingleDeletion),
        15 => Ok(Kind::RangeDeletion),
        other @ 16..=31 => Err(KeyFault::UnsupportedKind(other)),
        other => Err(KeyFault::UnknownKind(other)),
    }
}

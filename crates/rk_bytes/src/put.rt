//! Numbers and slices as they are written: fixed integers, the shortest varints, slices after their
//! length.
ghost use Rattle.std.specs.Prelude.{◌≡◌, ◌++◌, ◌^◌, ◌<◌, length, OnOk, OnErr};
ghost use Rattle.rk_bytes.specs.Model.Numbers.{fixed_of, varint_of, prefixed_of};

use crate::varint::spell_varint;
use crate::{Bytes, Memory};

/// Puts 4 bytes at the end, the least significant first. Where memory runs out, it changes nothing.
pub fn put_fixed32(out: &mut Bytes, value: u32) -> Result<(), Memory>
    ensures ok { OnOk result (out.new ≡ out.old ++ fixed_of 4 value) }
    ensures err { OnErr result (out.new ≡ out.old) }
{
    out.append(&value.to_le_bytes())
}

/// Puts 8 bytes at the end, the least significant first. Where memory runs out, it changes nothing.
pub fn put_fixed64(out: &mut Bytes, value: u64) -> Result<(), Memory>
    ensures ok { OnOk result (out.new ≡ out.old ++ fixed_of 8 value) }
    ensures err { OnErr result (out.new ≡ out.old) }
{
    out.append(&value.to_le_bytes())
}

/// Puts the shortest varint of the number at the end. Where memory runs out, it changes nothing.
pub fn put_varint32(out: &mut Bytes, value: u32) -> Result<(), Memory>
    ensures ok { OnOk result (out.new ≡ out.old ++ varint_of value) }
    ensures err { OnErr result (out.new ≡ out.old) }
{
    put_varint64(out, u64::from(value))
}

/// Puts the shortest varint of the number at the end. Where memory runs out, it changes nothing.
pub fn put_varint64(out: &mut Bytes, value: u64) -> Result<(), Memory>
    ensures ok { OnOk result (out.new ≡ out.old ++ varint_of value) }
    ensures err { OnErr result (out.new ≡ out.old) }
{
    let (bytes, len) = spell_varint(value);
    out.append(&bytes[..len])
}

/// Puts the slice at the end after its length, a varint. Where memory runs out, it changes nothing.
pub fn put_prefixed(out: &mut Bytes, slice: &[u8]) -> Result<(), Memory>
    requires { length slice.now < 2 ^ 32 }
    ensures ok { OnOk result (out.new ≡ out.old ++ prefixed_of slice.now) }
    ensures err { OnErr result (out.new ≡ out.old) }
{
    let (bytes, len) = spell_varint(slice.len() as u64);
    out.append_both(&bytes[..len], slice)
}

ghost use Rattle.std.specs.Prelude.{◌≡◌, ◌+◌, ◌<◌, ◌≤◌, ◌↔◌, length, take, drop, IfOk, OnOk, OnErr, IsErrOf};
ghost use Rattle.rk_bytes.specs.Reading.{GoesOver, IsFurther, rest_of, read_by, slice_read};
ghost use Rattle.rk_bytes.specs.Model.Numbers.{IsFixed32, IsFixed64, varint32_at, varint64_at, prefixed_at};

use crate::model::NumFault;
use crate::varint::{MOST_BYTES, read_varint};
use std::marker::Model;

/// A place in bytes, from which values are read in turn. A refused call leaves it where it is.
#[derive(Debug, Drop)]
pub struct Cursor<'a> {
    bytes: &'a [u8],
    place: usize,
}

impl<'a> Model for Cursor<'a> {
    ghost use Rattle.std.specs.Prelude.{◌≤◌, length};
    ghost use Rattle.rk_bytes.specs.Reading.{Reading};

    ghost Value = { Reading };

    ghost view = { λ c. record { bytes = c.bytes.now; place = c.place } };

    ghost invariant = { λ c. c.place ≤ length c.bytes.now };
}

impl<'a> Cursor<'a> {
    /// At the first of the bytes.
    pub fn new(bytes: &'a [u8]) -> Cursor<'a>
        ensures { result ≡ record { bytes = bytes.now; place = 0 } }
    {
        Cursor { bytes, place: 0 }
    }

    /// How many bytes were read so far.
    pub fn place(&self) -> usize
        ensures value { result ≡ self.now.place }
        ensures within { result ≤ length self.now.bytes }
    {
        self.place
    }

    /// The bytes from the place on.
    pub fn rest(&self) -> &'a [u8]
        ensures { result.now ≡ rest_of self.now }
    {
        &self.bytes[self.place..]
    }

    /// The next `n` bytes. `Cut` comes exactly where there are fewer.
    pub fn take(&mut self, n: usize) -> Result<&'a [u8], NumFault>
        ensures part { IfOk result (λ part. part.now ≡ take n (rest_of self.old)) }
        ensures after { OnOk result (GoesOver n self.old self.new) }
        ensures cut { IsErrOf result NumFault.Cut ↔ (length (rest_of self.old) < n) }
        ensures only_cut { OnErr result (IsErrOf result NumFault.Cut) }
        ensures err { OnErr result (self.new ≡ self.old) }
    {
        let rest = &self.bytes[self.place..];
        if rest.len() < n {
            return Err(NumFault::Cut);
        }
        self.place += n;
        Ok(&rest[..n])
    }

    /// The next 4 bytes as a little-endian number. `Cut` comes exactly where there are fewer.
    pub fn fixed32(&mut self) -> Result<u32, NumFault>
        ensures value { IfOk result (IsFixed32 (take 4 (rest_of self.old))) }
        ensures after { OnOk result (GoesOver 4 self.old self.new) }
        ensures cut { IsErrOf result NumFault.Cut ↔ (length (rest_of self.old) < 4) }
        ensures only_cut { OnErr result (IsErrOf result NumFault.Cut) }
        ensures err { OnErr result (self.new ≡ self.old) }
    {
        let part = self.take(4)?;
        Ok(u32::from_le_bytes([part[0], part[1], part[2], part[3]]))
    }

    /// The next 8 bytes as a little-endian number. `Cut` comes exactly where there are fewer.
    pub fn fixed64(&mut self) -> Result<u64, NumFault>
        ensures value { IfOk result (IsFixed64 (take 8 (rest_of self.old))) }
        ensures after { OnOk result (GoesOver 8 self.old self.new) }
        ensures cut { IsErrOf result NumFault.Cut ↔ (length (rest_of self.old) < 8) }
        ensures only_cut { OnErr result (IsErrOf result NumFault.Cut) }
        ensures err { OnErr result (self.new ≡ self.old) }
    {
        let part = self.take(8)?;
        Ok(u64::from_le_bytes([
            part[0], part[1], part[2], part[3], part[4], part[5], part[6], part[7],
        ]))
    }

    /// The varint of 32 bits that comes next, in any spelling of at most 5 bytes. `TooLarge` comes
    /// exactly where it isn't ended by then or doesn't fit, and else `Cut` where the bytes end before
    /// it does.
    pub fn varint32(&mut self) -> Result<u32, NumFault>
        ensures value { read_by result self.new ≡ varint32_at (rest_of self.old) }
        ensures after { IsFurther self.old self.new }
        ensures err { OnErr result (self.new ≡ self.old) }
    {
        let (value, len) = read_varint(&self.bytes[self.place..], 5)?;
        match u32::try_from(value) {
            Ok(value) => {
                self.place += len;
                Ok(value)
            }
            Err(_) => Err(NumFault::TooLarge),
        }
    }

    /// The varint of 64 bits that comes next, in any spelling of at most 10 bytes. `TooLarge` comes
    /// exactly where it isn't ended by then or doesn't fit, and else `Cut` where the bytes end before
    /// it does.
    pub fn varint64(&mut self) -> Result<u64, NumFault>
        ensures value { read_by result self.new ≡ varint64_at (rest_of self.old) }
        ensures after { IsFurther self.old self.new }
        ensures err { OnErr result (self.new ≡ self.old) }
    {
        let (value, len) = read_varint(&self.bytes[self.place..], MOST_BYTES)?;
        self.place += len;
        Ok(value)
    }

    /// The slice that comes next after its length, which is a varint of 32 bits. `Cut` and `TooLarge`
    /// come as of that length, and `Cut` where the slice has fewer bytes.
    pub fn prefixed(&mut self) -> Result<&'a [u8], NumFault>
        ensures value { read_by (slice_read result) self.new ≡ prefixed_at (rest_of self.old) }
        ensures after { IsFurther self.old self.new }
        ensures err { OnErr result (self.new ≡ self.old) }
    {
        let start = self.place;
        let len = self.varint32()?;
        match self.take(len as usize) {
            Ok(part) => Ok(part),
            Err(fault) => {
                self.place = start;
                Err(fault)
            }
        }
    }
}

//! Bytes as they are shown: in hexadecimal, or between quotation marks.
ghost use Rattle.std.specs.Prelude.{◌≡◌, ◌≢◌, ◌*◌, ◌++◌, IfOk, OnOk, flat_map, take, length, slice_index, ◌<◌, ◌≤◌};
ghost use Rattle.std.specs.List.{list_all};
ghost use Rattle.hex.specs.Hex.{encode_lower, lower_digits};
ghost use Rattle.rk_bytes.specs.Model.Lines.{quoted, shown_byte, stands_for_itself};

mod table;

use crate::Line;
use rk_bytes::{Bytes, Memory};
use std::alloc::Global;
use table::SHOWN;

/// How many bytes are spelled in hexadecimal, or shown between quotation marks, at once.
const CHUNK_LEN: usize = 32;

/// How many bytes a byte is shown as at most.
const SHOWN_LEN: usize = 4;

/// Bytes as they are shown: in hexadecimal after `0x`, or between quotation marks. `Memory` comes only
/// where memory runs out.
pub fn quoted(alloc: Global, bytes: &[u8], hex: bool) -> Result<Bytes, Memory>
    ensures { IfOk result (λ text. text ≡ quoted hex bytes.now) }
{
    let mut line = Line::new(alloc);
    line.put_quoted(bytes, hex)?;
    Ok(line.into_bytes())
}

impl Line {
    /// Puts the bytes at the end: in hexadecimal after `0x`, or between quotation marks.
    pub(crate) fn put_quoted(&mut self, bytes: &[u8], hex: bool) -> Result<(), Memory>
        ensures { OnOk result (self.new ≡ self.old ++ quoted hex bytes.now) }
    {
        if hex {
            self.put(b"0x")?;
            self.put_hex(bytes)
        } else {
            self.put(b"\"")?;
            self.put_shown(bytes)?;
            self.put(b"\"")
        }
    }

    /// Puts two digits for each byte at the end, those of a chunk of bytes at once.
    fn put_hex(&mut self, bytes: &[u8]) -> Result<(), Memory>
        ensures { OnOk result (self.new ≡ self.old ++ encode_lower bytes.now) }
    {
        let mut rest = bytes;
        while !rest.is_empty() {
            let (chunk, others) = split_chunk(rest);
            self.put_digits(chunk)?;
            rest = others;
        }
        Ok(())
    }

    /// Puts the digits of a chunk of bytes at the end.
    fn put_digits(&mut self, chunk: &[u8]) -> Result<(), Memory>
        requires { length chunk.now ≤ CHUNK_LEN }
        ensures { OnOk result (self.new ≡ self.old ++ encode_lower chunk.now) }
    {
        let mut whole = [0; CHUNK_LEN];
        whole[..chunk.len()].copy_from_slice(chunk);
        let text = digits(&whole);
        self.put(&text[..2 * chunk.len()])
    }

    /// Puts the bytes at the end as they stand between quotation marks, those of a chunk of bytes at once.
    fn put_shown(&mut self, bytes: &[u8]) -> Result<(), Memory>
        ensures { OnOk result (self.new ≡ self.old ++ flat_map shown_byte bytes.now) }
    {
        let mut rest = bytes;
        while !rest.is_empty() {
            let (chunk, others) = split_chunk(rest);
            self.put_shown_chunk(chunk)?;
            rest = others;
        }
        Ok(())
    }

    /// Puts a chunk of bytes at the end as they stand between quotation marks.
    fn put_shown_chunk(&mut self, chunk: &[u8]) -> Result<(), Memory>
        requires { length chunk.now ≤ CHUNK_LEN }
        ensures { OnOk result (self.new ≡ self.old ++ flat_map shown_byte chunk.now) }
    {
        if all_stand_for_themselves(chunk) {
            return self.put(chunk);
        }
        let mut buffer = [0; SHOWN_LEN * CHUNK_LEN];
        let len = show(chunk, &mut buffer);
        self.put(&buffer[..len])
    }
}

/// The digits of a whole chunk, two for each byte. All are made alike, so that many are made at once.
fn digits(bytes: &[u8; CHUNK_LEN]) -> [u8; 2 * CHUNK_LEN]
    ensures { result ≡ encode_lower bytes.now }
{
    let mut text = [0; 2 * CHUNK_LEN];
    for index in 0..CHUNK_LEN {
        let byte = bytes[index];
        text[2 * index] = digit(byte / 16);
        text[2 * index + 1] = digit(byte % 16);
    }
    text
}

/// The digit of a number below 16.
#[inline(always)]
fn digit(number: u8) -> u8
    requires { number < 16 }
    ensures { result ≡ slice_index lower_digits number }
{
    if number < 10 {
        b'0' + number
    } else {
        b'a' - 10 + number
    }
}

/// Writes the bytes of a chunk to the front of the buffer as they stand between quotation marks, and says
/// how many bytes that takes.
fn show(chunk: &[u8], buffer: &mut [u8; SHOWN_LEN * CHUNK_LEN]) -> usize
    requires { length chunk.now ≤ CHUNK_LEN }
    ensures within { result ≤ SHOWN_LEN * CHUNK_LEN }
    ensures shown { take result buffer.new ≡ flat_map shown_byte chunk.now }
{
    let mut len = 0;
    for byte in chunk {
        let (text, text_len) = shown(*byte);
        buffer[len..len + SHOWN_LEN].copy_from_slice(&text);
        len += text_len;
    }
    len
}

/// What a byte is shown as between quotation marks: a front of these bytes, and how long it is.
#[inline(always)]
fn shown(byte: u8) -> ([u8; SHOWN_LEN], usize)
    ensures within { result.1 ≤ SHOWN_LEN }
    ensures shown { take result.1 result.0 ≡ shown_byte byte }
{
    let text = SHOWN[byte as usize];
    let len = if text[1] == 0 { 1 } else { SHOWN_LEN };
    (text, len)
}

/// Whether each of the bytes stands for itself between quotation marks. All are looked at, in place of
/// those before the first that doesn't, so that many are tested at once.
fn all_stand_for_themselves(bytes: &[u8]) -> bool
    ensures { result ≡ list_all stands_for_itself bytes.now }
{
    let mut all = true;
    for byte in bytes {
        all &= stands_for_itself(*byte);
    }
    all
}

/// The bytes of the first chunk, which is shorter only where they end, and the others.
fn split_chunk(bytes: &[u8]) -> (&[u8], &[u8])
    ensures parts { bytes.now ≡ result.0.now ++ result.1.now }
    ensures short { length result.0.now ≤ CHUNK_LEN }
    ensures none { length bytes.now ≢ 0 → length result.1.now < length bytes.now }
{
    if bytes.len() <= CHUNK_LEN {
        (bytes, &[])
    } else {
        bytes.split_at(CHUNK_LEN)
    }
}

/// Whether the byte stands for itself between quotation marks.
fn stands_for_itself(byte: u8) -> bool
    ensures { result ≡ stands_for_itself byte }
{
    matches!(byte, b' '..=b'~') && byte != b'"' && byte != b'\\'
}

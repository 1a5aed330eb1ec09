//! The keys and names that words spell.
ghost use Rattle.std.specs.Prelude.{◌≡◌, codes, unwrap_or, IfOk};
ghost use Rattle.std.specs.Option.{option_copied, option_map};
ghost use Rattle.rk_bytes.specs.Model.Grammar.{key_bytes, hex_key};
ghost use Rattle.rk_ldb.specs.Commands.{told_key};
ghost use Rattle.rk_ldb.specs.Keys.{bytes_of};

use hex::FromHexError;
use rk_bytes::{Bytes, Memory};
use std::alloc::Global;

/// How a key is spelled.
#[derive(Clone, Copy, Debug, PartialEq, Eq)]
pub enum KeyWord<'a> {
    /// By its text, which doesn't begin with `0x`.
    Text(&'a [u8]),
    /// By its hexadecimal digits, of either case, which stand after `0x`.
    Hex(&'a [u8]),
}

/// The bytes of a key.
#[derive(Debug, Drop)]
pub(crate) enum KeyBytes<'a> {
    /// Those of its text.
    Lent(&'a [u8]),
    /// Those that its digits spell.
    Decoded(Bytes),
}

impl<'a> KeyBytes<'a> {
    /// All of the bytes.
    pub(crate) fn as_slice(&self) -> &[u8]
        ensures { result.now ≡ bytes_of self.now }
    {
        match self {
            KeyBytes::Lent(text) => text,
            KeyBytes::Decoded(bytes) => bytes.as_slice(),
        }
    }
}

/// The bytes of the key that is spelled so. `Memory` comes only where memory runs out.
pub(crate) fn key_bytes<'a>(alloc: Global, key: KeyWord<'a>) -> Result<KeyBytes<'a>, Memory>
    ensures { IfOk result (λ key_read. bytes_of key_read ≡ key_bytes (told_key key.entry)) }
{
    match key {
        KeyWord::Text(text) => Ok(KeyBytes::Lent(text)),
        KeyWord::Hex(digits) => Ok(KeyBytes::Decoded(decoded(alloc, digits)?)),
    }
}

/// The bytes that the digits spell, or none where they spell none.
fn decoded(alloc: Global, digits: &[u8]) -> Result<Bytes, Memory>
    ensures { IfOk result (λ bytes. bytes ≡ key_bytes (hex_key digits.now)) }
{
    match hex::decode(alloc, digits) {
        Ok(bytes) => Ok(Bytes::from_vec(bytes)),
        Err(FromHexError::OutOfMemory) => Err(Memory),
        Err(_) => Ok(Bytes::new(alloc)),
    }
}

/// The bytes of a bound, where there is one.
pub(crate) fn bound_bytes<'a>(
    alloc: Global,
    bound: Option<KeyWord<'a>>,
) -> Result<Option<KeyBytes<'a>>, Memory>
    ensures { IfOk result (λ read. option_map bytes_of read ≡ option_map key_bytes (option_map told_key bound.entry)) }
{
    match bound {
        None => Ok(None),
        Some(key) => Ok(Some(key_bytes(alloc, key)?)),
    }
}

/// A bound, lent.
pub(crate) fn lent<'a>(bound: &'a Option<KeyBytes<'_>>) -> Option<&'a [u8]>
    ensures { option_copied result ≡ option_map bytes_of bound.now }
{
    match bound {
        None => None,
        Some(key) => Some(key.as_slice()),
    }
}

/// The name of the family that is meant: the default one, where none is named.
pub(crate) fn family_name<'a>(named: Option<&'a [u8]>) -> &'a [u8]
    ensures { result.now ≡ unwrap_or (option_copied named.entry) (codes "default") }
{
    match named {
        Some(name) => name,
        None => b"default",
    }
}

ghost use Rattle.std.specs.Prelude.{◌≡◌, ◌++◌, ◌∷◌, [], codes, decimal, OnOk};
ghost use Rattle.rk_bytes.specs.Model.Lines.{quoted, then_number, line};

use itoa::Buffer;
use rk_bytes::{Bytes, Memory};
use std::alloc::Global;
use std::marker::Model;

/// A buffer that serves for all lines, one after the other, and keeps its memory. Contracts see its
/// bytes. A call that lacks memory may leave a part of its line, which the next call replaces.
#[derive(Debug, Drop)]
pub struct Line {
    pub(crate) bytes: Vec<u8>,
}

impl Model for Line {
    ghost use Rattle.std.specs.Prelude.{List, ℕ};

    ghost Value = { List ℕ };

    ghost view = { λ l. l.bytes.items };
}

impl Line {
    /// An empty line. Takes no memory yet.
    pub fn new(alloc: Global) -> Line
        ensures { result ≡ [] }
    {
        Line {
            bytes: Vec::new(alloc),
        }
    }

    /// The bytes of the line.
    pub fn as_slice(&self) -> &[u8]
        ensures { result.now ≡ self.now }
    {
        self.bytes.as_slice()
    }

    /// The bytes of the line, taking no memory.
    pub(crate) fn into_bytes(self) -> Bytes
        ensures { result ≡ self }
    {
        let Line { bytes } = self;
        Bytes::from_vec(bytes)
    }

    /// Takes away what stands in the line, and keeps its memory.
    pub(crate) fn clear(&mut self)
        ensures { self.new ≡ [] }
    {
        self.bytes.clear();
    }

    /// Puts the bytes at the end.
    pub(crate) fn put(&mut self, bytes: &[u8]) -> Result<(), Memory>
        ensures { OnOk result (self.new ≡ self.old ++ bytes.now) }
    {
        self.bytes.extend_from_slice(bytes)?;
        Ok(())
    }

    /// Puts the number at the end, in decimal.
    pub(crate) fn put_decimal(&mut self, number: u64) -> Result<(), Memory>
        ensures { OnOk result (self.new ≡ self.old ++ decimal number) }
    {
        let mut buffer = Buffer::new();
        self.put(buffer.format(number).as_bytes())
    }

    /// Puts a space and the number at the end.
    pub(crate) fn put_number(&mut self, number: u64) -> Result<(), Memory>
        ensures { OnOk result (self.new ≡ self.old ++ then_number number) }
    {
        self.put(b" ")?;
        self.put_decimal(number)
    }

    /// Puts the word, a space and the number at the end.
    pub(crate) fn put_with_number(&mut self, word: &[u8], number: u64) -> Result<(), Memory>
        ensures { OnOk result (self.new ≡ self.old ++ (word.now ++ then_number number)) }
    {
        self.put(word)?;
        self.put_number(number)
    }

    /// Puts the word and a number of 32 bits at the end, with a space between them.
    pub(crate) fn put_with_id(&mut self, word: &[u8], id: u32) -> Result<(), Memory>
        ensures { OnOk result (self.new ≡ self.old ++ (word.now ++ then_number id)) }
    {
        self.put_with_number(word, u64::from(id))
    }

    /// Puts the word and a number of 8 bits at the end, with a space between them.
    pub(crate) fn put_with_byte(&mut self, word: &[u8], number: u8) -> Result<(), Memory>
        ensures { OnOk result (self.new ≡ self.old ++ (word.now ++ then_number number)) }
    {
        self.put_with_number(word, u64::from(number))
    }

    /// Puts the word, a number and a space at the end.
    pub(crate) fn put_led(&mut self, word: &[u8], number: u64) -> Result<(), Memory>
        ensures { OnOk result (self.new ≡ self.old ++ (word.now ++ then_number number ++ codes " ")) }
    {
        self.put_with_number(word, number)?;
        self.put(b" ")
    }

    /// Puts the word and two numbers at the end, with spaces between them.
    pub(crate) fn put_numbers(&mut self, word: &[u8], one: u64, other: u64) -> Result<(), Memory>
        ensures { OnOk result (self.new ≡ self.old ++ (word.now ++ then_number one ++ then_number other)) }
    {
        self.put_with_number(word, one)?;
        self.put_number(other)
    }

    /// Ends the line.
    pub(crate) fn end(&mut self) -> Result<(), Memory>
        ensures { OnOk result (self.new ≡ line self.old) }
    {
        self.put(b"\n")
    }
}

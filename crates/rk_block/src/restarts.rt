//! The restart offsets of a block.
ghost use Rattle.std.specs.Prelude.{◌≡◌, ◌%◌, length};
ghost use Rattle.rk_bytes.specs.Model.Numbers.{little_endian};
ghost use Rattle.rk_bytes.specs.Model.BlockEntries.{fixed32s};
ghost use Rattle.rk_block.specs.Restarts.{restarts_of, restarts_after, are_met};

use std::marker::Model;

/// How many bytes an offset has.
pub(crate) const OFFSET_LEN: usize = 4;

/// The restart offsets of a block, beside a walk over its entries. Contracts see whether the first of
/// all was 0, and those at which no entry was passed yet.
#[derive(Debug, Drop)]
pub struct Restarts<'a> {
    from_zero: bool,
    left: &'a [u8],
}

impl<'a> Model for Restarts<'a> {
    ghost use Rattle.std.specs.Prelude.{◌≡◌, ◌%◌, length};
    ghost use Rattle.rk_bytes.specs.Model.BlockEntries.{fixed32s};
    ghost use Rattle.rk_block.specs.Restarts.{RestartsSeen};

    ghost Value = { RestartsSeen };

    ghost view = { λ r. record { from_zero = r.from_zero; left = fixed32s r.left.now } };

    ghost invariant = { λ r. length r.left.now % 4 ≡ 0 };
}

impl<'a> Restarts<'a> {
    /// The offsets that bytes spell, four for each, before any entry.
    pub(crate) fn new(bytes: &'a [u8]) -> Restarts<'a>
        requires { length bytes.now % OFFSET_LEN ≡ 0 }
        ensures { result ≡ restarts_of (fixed32s bytes.now) }
    {
        let from_zero = !bytes.is_empty() && fixed32(&bytes[..OFFSET_LEN]) == 0;
        Restarts {
            from_zero,
            left: bytes,
        }
    }

    /// The same offsets once more.
    pub(crate) fn again(&self) -> Restarts<'a>
        ensures { result ≡ self.now }
    {
        Restarts {
            from_zero: self.from_zero,
            left: self.left,
        }
    }

    /// Passes an entry at this place whose key shares so many bytes with the key before it. Entries are
    /// passed in their order. Takes no memory.
    pub fn pass(&mut self, place: usize, shared: usize)
        ensures { self.new ≡ restarts_after place shared self.old }
    {
        if shared > 0 || self.left.is_empty() {
            return;
        }
        if fixed32(&self.left[..OFFSET_LEN]) as usize == place {
            self.left = &self.left[OFFSET_LEN..];
        }
    }

    /// Whether the offsets are right for the entries that were passed, which are all, or none where the
    /// block has none. Since offsets rise as places do, none is left then, and of a block without an
    /// entry the only one. Takes no memory.
    pub fn are_met(&self, has_entries: bool) -> bool
        ensures { result ≡ are_met has_entries self.now }
    {
        let left = if has_entries { 0 } else { 1 };
        self.from_zero && self.left.len() / OFFSET_LEN == left
    }
}

/// The number that four bytes spell, the least significant first.
pub(crate) fn fixed32(bytes: &[u8]) -> u32
    requires { length bytes.now ≡ 4 }
    ensures { result ≡ little_endian bytes.now }
{
    u32::from_le_bytes([bytes[0], bytes[1], bytes[2], bytes[3]])
}

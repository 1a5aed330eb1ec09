ghost use Rattle.std.specs.Prelude.{◌≡◌, ◌+◌, ◌≤◌, [], length, IsOk, OnOk, OnErr};
ghost use Rattle.rk_block.specs.Raw.{key_after};

use crate::RawEntry;
use rk_bytes::Memory;
use smallvec::SmallVec;
use std::alloc::Global;
use std::marker::Model;

/// How long a key may be to be kept without an allocation.
const INLINE_LEN: usize = 64;

/// A key that is rebuilt entry by entry. Contracts see it as a list.
#[derive(Debug, Drop)]
pub struct KeyBuf {
    bytes: SmallVec<u8, INLINE_LEN>,
}

impl Model for KeyBuf {
    ghost use Rattle.std.specs.Prelude.{◌≤◌, List, ℕ};
    ghost use Rattle.rk_block.specs.declared.key_buf.TheConstants.{INLINE_LEN};

    ghost Value = { List ℕ };

    ghost view = { λ k. k.bytes.items };

    ghost invariant = { λ k. INLINE_LEN ≤ k.bytes.capacity };
}

impl KeyBuf {
    /// The empty key, which is that before the first entry of a block. Takes no memory yet.
    pub fn new(alloc: Global) -> KeyBuf
        ensures { result ≡ [] }
    {
        KeyBuf {
            bytes: SmallVec::new(alloc),
        }
    }

    /// Goes from the key before an entry to the entry's key. It takes no memory for a key of at most 64
    /// bytes. Where memory runs out, it changes nothing.
    pub fn step(&mut self, entry: &RawEntry<'_>) -> Result<(), Memory>
        requires { entry.now.shared ≤ length self.old }
        ensures ok { OnOk result (self.new ≡ key_after self.old entry.now) }
        ensures short { entry.now.shared + length entry.now.rest.now ≤ INLINE_LEN → IsOk result }
        ensures err { OnErr result (self.new ≡ self.old) }
    {
        let dropped = self.bytes.len() - entry.shared;
        let more = entry.rest.len().saturating_sub(dropped);
        self.bytes.reserve(more)?;
        self.bytes.truncate(entry.shared);
        match self.bytes.extend_from_slice(entry.rest) {
            Ok(()) => Ok(()),
            Err(_) => unreachable!(),
        }
    }

    /// The whole key.
    pub fn as_slice(&self) -> &[u8]
        ensures { result.now ≡ self.now }
    {
        self.bytes.as_slice()
    }
}

//! A block while it is built.
ghost use Rattle.std.specs.Prelude.{◌≡◌, ◌==◌, ◌+◌, ◌-◌, ◌/◌, ◌^◌, ◌<◌, ◌≤◌, ℕ, Bool, List, ◌∷◌, [], ◌++◌, length, drop, IfOk, OnOk, OnErr, nat_eq, if◌then◌else◌};
ghost use Rattle.std.specs.List.{common_prefix_len};
ghost use Rattle.rk_bytes.specs.Model.Numbers.{fixed_of, varint_of};
ghost use Rattle.rk_bytes.specs.Model.Writers.{entry_bytes, last_entry_key};
ghost use Rattle.rk_block.specs.Building.{Extends, key_before, offset_bytes, built_block, with_entry};

use crate::{History, KeyBuf, RawEntry};
use rk_bytes::{Bytes, Memory, put_fixed32, put_varint32};
use std::alloc::Global;
use std::marker::Model;

/// How many bytes at the front two slices share.
fn shared_len(first: &[u8], second: &[u8]) -> usize
    ensures shared { result ≡ common_prefix_len nat_eq first.now second.now }
    ensures within { result ≤ length second.now }
{
    let mut len = 0;
    while len < first.len() && len < second.len() && first[len] == second[len] {
        len += 1;
    }
    len
}

/// The key that an entry is written after: none at a restart.
fn key_before(restarts: bool, last: &KeyBuf) -> &[u8]
    ensures { result.now ≡ key_before restarts last.now }
{
    if restarts { &[] } else { last.as_slice() }
}

/// Puts the lengths with which an entry begins at the end.
fn put_lengths(out: &mut Bytes, shared: u32, rest: u32, value: u32) -> Result<(), Memory>
    ensures { Extends out.old (varint_of shared ++ varint_of rest ++ varint_of value) result out.new }
{
    put_varint32(out, shared)?;
    put_varint32(out, rest)?;
    put_varint32(out, value)
}

/// Puts an entry at the end, of whose key so many bytes are shared.
fn put_sharing(out: &mut Bytes, shared: usize, key: &[u8], value: &[u8]) -> Result<(), Memory>
    requires key { length key.now < 2 ^ 32 }
    requires value { length value.now < 2 ^ 32 }
    requires shared { shared ≤ length key.now }
    ensures { Extends out.old (varint_of shared ++ varint_of (length key.now - shared) ++ varint_of (length value.now) ++ drop shared key.now ++ value.now) result out.new }
{
    put_lengths(
        out,
        shared as u32,
        (key.len() - shared) as u32,
        value.len() as u32,
    )?;
    out.append_both(&key[shared..], value)
}

/// Puts an entry at the end, written after another with this key.
fn put_entry(out: &mut Bytes, before: &[u8], key: &[u8], value: &[u8]) -> Result<(), Memory>
    requires key { length key.now < 2 ^ 32 }
    requires value { length value.now < 2 ^ 32 }
    ensures { Extends out.old (entry_bytes before.now (key.now, value.now)) result out.new }
{
    put_sharing(out, shared_len(before, key), key, value)
}

/// Puts the offset of a restart at the end, if the next entry is one.
fn put_offset(offsets: &mut Bytes, restarts: bool, place: usize) -> Result<(), Memory>
    requires { place < 2 ^ 32 }
    ensures { Extends offsets.old (offset_bytes restarts place) result offsets.new }
{
    if restarts {
        put_fixed32(offsets, place as u32)
    } else {
        Ok(())
    }
}

/// How many entries came since the last restart, with one more.
fn count_after(count: u32, restart_every: u32) -> u32
    requires { count ≤ restart_every }
    ensures { result ≡ (if count == restart_every then 1 else count + 1) }
{
    if count == restart_every { 1 } else { count + 1 }
}

/// Puts an entry at the end, with its restart offset if it is a restart. Where memory runs out, some
/// bytes may be at the ends, and the last key stays.
fn put_more(
    out: &mut Bytes,
    offsets: &mut Bytes,
    last: &mut KeyBuf,
    restarts: bool,
    key: &[u8],
    value: &[u8],
) -> Result<(), Memory>
    requires key { length key.now < 2 ^ 32 }
    requires value { length value.now < 2 ^ 32 }
    requires place { length out.old < 2 ^ 32 }
    ensures out { Extends out.old (entry_bytes (key_before restarts last.old) (key.now, value.now)) result out.new }
    ensures offsets { Extends offsets.old (offset_bytes restarts (length out.old)) result offsets.new }
    ensures ok { OnOk result (last.new ≡ key.now) }
    ensures err { OnErr result (last.new ≡ last.old) }
{
    put_offset(offsets, restarts, out.as_slice().len())?;
    put_entry(out, key_before(restarts, last), key, value)?;
    last.step(&RawEntry {
        shared: 0,
        rest: key,
        value,
    })
}

/// The bytes of entries, with their restart offsets behind them, the first of which is 0, and how many
/// these are.
fn with_restarts(entries: Bytes, offsets: &Bytes) -> Result<Bytes, Memory>
    requires { length offsets.now < 2 ^ 32 }
    ensures { IfOk result (λ block. block ≡ entries ++ (fixed_of 4 0 ++ offsets.now) ++ fixed_of 4 (length offsets.now / 4 + 1)) }
{
    let mut block = entries;
    block.append_both(&[0; 4], offsets.as_slice())?;
    put_fixed32(&mut block, (offsets.as_slice().len() / 4 + 1) as u32)?;
    Ok(block)
}

/// Builds a block. Contracts see at how many entries each there is a restart, and the entries so far.
#[derive(Drop)]
pub struct BlockBuilder {
    restart_every: u32,
    /// The entries so far, written.
    out: Bytes,
    /// The offsets of the restarts so far, 4 bytes each, without the first, which is 0.
    offsets: Bytes,
    /// The last entry's key.
    last: KeyBuf,
    /// How many entries came since the last restart.
    count: u32,
    history: History,
}

impl Model for BlockBuilder {
    ghost use Rattle.rk_block.specs.Building.{Building, IsBuilt, noted_entries};

    ghost Value = { Building };

    ghost view = { λ b. record { restart_every = b.restart_every; entries = noted_entries b.history.items } };

    ghost invariant = { λ b. IsBuilt b.restart_every (noted_entries b.history.items) b.out b.offsets b.last b.count };
}

impl BlockBuilder {
    /// A block without an entry. Takes no memory yet.
    pub fn new(alloc: Global, restart_every: u32) -> BlockBuilder
        requires { 1 ≤ restart_every }
        ensures empty { result ≡ record { restart_every = restart_every; entries = [] } }
        ensures small { length (built_block result) ≡ 8 }
    {
        BlockBuilder {
            restart_every,
            out: Bytes::new(alloc),
            offsets: Bytes::new(alloc),
            last: KeyBuf::new(alloc),
            count: 0,
            history: History::new(),
        }
    }

    /// How many bytes the block has if it ends here.
    pub fn size(&self) -> usize
        ensures { result ≡ length (built_block self.now) }
    {
        self.out.as_slice().len() + self.offsets.as_slice().len() + 8
    }

    /// The key of the last entry, or no bytes before the first.
    pub fn last_key(&self) -> &[u8]
        ensures { result.now ≡ last_entry_key self.now.entries }
    {
        self.last.as_slice()
    }

    /// Adds an entry. Where memory runs out, it changes nothing.
    pub fn add(&mut self, key: &[u8], value: &[u8]) -> Result<(), Memory>
        requires { length (built_block self.old) + length key.now + length value.now + 32 < 2 ^ 32 }
        ensures ok { OnOk result (self.new ≡ with_entry self.old key.now value.now) }
        ensures grows { OnOk result (length (built_block self.new) ≤ length (built_block self.old) + length key.now + length value.now + 19) }
        ensures err { OnErr result (self.new ≡ self.old) }
    {
        let out_len = self.out.as_slice().len();
        let offsets_len = self.offsets.as_slice().len();
        let restarts = self.count == self.restart_every;
        match put_more(
            &mut self.out,
            &mut self.offsets,
            &mut self.last,
            restarts,
            key,
            value,
        ) {
            Ok(()) => {
                self.count = count_after(self.count, self.restart_every);
                self.history.note(&[], key, value);
                Ok(())
            }
            Err(memory) => {
                self.out.truncate(out_len);
                self.offsets.truncate(offsets_len);
                Err(memory)
            }
        }
    }

    /// The block's bytes. `Memory` comes only where memory runs out.
    pub fn finish(self) -> Result<Bytes, Memory>
        ensures block { IfOk result (λ block. block ≡ built_block self) }
        ensures short { IfOk result (λ block. length block < 2 ^ 32) }
    {
        let BlockBuilder {
            restart_every: _,
            out,
            offsets,
            last: _,
            count: _,
            history: _,
        } = self;
        with_restarts(out, &offsets)
    }
}

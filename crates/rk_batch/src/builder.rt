ghost use Rattle.std.specs.Prelude.{◌≡◌, ◌+◌, ◌-◌, ◌^◌, ◌<◌, ◌≤◌, ℕ, List, ◌∷◌, [], ◌++◌, length, Ok, IfOk, OnOk, OnErr};
ghost use Rattle.rk_bytes.specs.Model.InternalKey.{top_sequence};
ghost use Rattle.rk_bytes.specs.Model.WriteBatch.{plain_tag, family_tag, batch_of};
ghost use Rattle.rk_bytes.specs.Model.Writers.{family_bytes, value_bytes, change_bytes, batch_bytes};
ghost use Rattle.rk_batch.specs.Building.{Extends, SuitsKind, record_of, next_record, parts_from, with_header};

use crate::Kind;
use rk_bytes::{Bytes, Memory, put_fixed32, put_fixed64, put_prefixed, put_varint32};
use std::alloc::Global;
use std::marker::Model;

/// Builds a write batch. Contracts see its sequence number and its records so far.
#[derive(Debug, Drop)]
pub struct BatchBuilder {
    sequence: u64,
    count: u32,
    /// The batch so far, whose header states no change yet.
    out: Bytes,
}

impl Model for BatchBuilder {
    ghost use Rattle.rk_batch.specs.Building.{Building, IsBuilt, records_in};

    ghost Value = { Building };

    ghost view = { λ b. record { sequence = b.sequence; records = records_in b.sequence b.out } };

    ghost invariant = { λ b. IsBuilt b.sequence b.count b.out };
}

impl BatchBuilder {
    /// A batch without a record, the first of which will have this sequence number. `Memory` comes only
    /// where memory runs out.
    pub fn new(alloc: Global, sequence: u64) -> Result<BatchBuilder, Memory>
        ensures { IfOk result (λ builder. builder ≡ record { sequence = sequence; records = [] }) }
    {
        let mut out = Bytes::new(alloc);
        put_fixed64(&mut out, sequence)?;
        put_fixed32(&mut out, 0)?;
        Ok(BatchBuilder {
            sequence,
            count: 0,
            out,
        })
    }

    /// Adds a record, which takes the next sequence number. The value of a range deletion is its end.
    /// Where memory runs out, it changes nothing.
    pub fn add(&mut self, family: u32, kind: Kind, key: &[u8], value: &[u8]) -> Result<(), Memory>
        requires count { length self.old.records < 2 ^ 32 - 1 }
        requires sequence { self.old.sequence + length self.old.records ≤ top_sequence }
        requires key { length key.now < 2 ^ 32 }
        requires value { length value.now < 2 ^ 32 }
        requires kind { SuitsKind kind value.now }
        ensures ok { OnOk result (self.new ≡ record self.old { records = self.old.records ++ next_record self.old family kind key.now value.now ∷ [] }) }
        ensures err { OnErr result (self.new ≡ self.old) }
    {
        let len = self.out.as_slice().len();
        match put_change(&mut self.out, family, kind, key, value) {
            Ok(()) => {
                self.count += 1;
                Ok(())
            }
            Err(memory) => {
                self.out.truncate(len);
                Err(memory)
            }
        }
    }

    /// The batch's bytes. Takes no memory.
    pub fn finish(self) -> Bytes
        ensures bytes { result ≡ batch_bytes self.sequence self.records }
        ensures reads { self.sequence ≤ top_sequence → batch_of result ≡ Ok (record { sequence = self.sequence; parts = parts_from 12 self.records }) }
    {
        let BatchBuilder {
            sequence: _,
            count,
            out,
        } = self;
        with_count(out, count)
    }
}

/// The batch with this count in its header, which states none yet.
fn with_count(batch: Bytes, count: u32) -> Bytes
    requires { 12 ≤ length batch }
    ensures { (sequence : ℕ) (back : List ℕ) → batch ≡ with_header sequence 0 back → result ≡ with_header sequence count back }
{
    let mut bytes = batch.into_vec();
    let [first, second, third, fourth] = count.to_le_bytes();
    bytes[8] = first;
    bytes[9] = second;
    bytes[10] = third;
    bytes[11] = fourth;
    Bytes::from_vec(bytes)
}

/// The tag of a change in the default family.
fn plain_tag(kind: Kind) -> u8
    ensures { result ≡ plain_tag kind }
{
    match kind {
        Kind::Deletion => 0x0,
        Kind::Value => 0x1,
        Kind::Merge => 0x2,
        Kind::SingleDeletion => 0x7,
        Kind::RangeDeletion => 0xF,
    }
}

/// The tag of a change that a family's id follows.
fn family_tag(kind: Kind) -> u8
    ensures { result ≡ family_tag kind }
{
    match kind {
        Kind::Deletion => 0x4,
        Kind::Value => 0x5,
        Kind::Merge => 0x6,
        Kind::SingleDeletion => 0x8,
        Kind::RangeDeletion => 0xE,
    }
}

/// Puts a change at the end.
fn put_change(
    out: &mut Bytes,
    family: u32,
    kind: Kind,
    key: &[u8],
    value: &[u8],
) -> Result<(), Memory>
    requires key { length key.now < 2 ^ 32 }
    requires value { length value.now < 2 ^ 32 }
    ensures { Extends out.old (change_bytes (record_of family kind key.now value.now)) result out.new }
{
    put_tag(out, family, kind)?;
    put_prefixed(out, key)?;
    put_value(out, kind, value)
}

/// Puts a change's tag at the end, and its family where that isn't the default one.
fn put_tag(out: &mut Bytes, family: u32, kind: Kind) -> Result<(), Memory>
    ensures { Extends out.old (family_bytes (record_of family kind [] [])) result out.new }
{
    if family == 0 {
        return out.append(&[plain_tag(kind)]);
    }
    out.append(&[family_tag(kind)])?;
    put_varint32(out, family)
}

/// Puts the value of a change of this kind at the end.
fn put_value(out: &mut Bytes, kind: Kind, value: &[u8]) -> Result<(), Memory>
    requires { length value.now < 2 ^ 32 }
    ensures { Extends out.old (value_bytes kind value.now) result out.new }
{
    match kind {
        Kind::Deletion | Kind::SingleDeletion => Ok(()),
        Kind::Value | Kind::Merge | Kind::RangeDeletion => put_prefixed(out, value),
    }
}

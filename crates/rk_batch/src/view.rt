ghost use Rattle.std.specs.Prelude.{◌≡◌, ◌+◌, ◌-◌, ◌^◌, ◌<◌, ◌≤◌, ◌∷◌, [], ℕ, length, IfSome, IfNone};
ghost use Rattle.rk_bytes.specs.Model.WriteBatch.{batch_of, batch_sequence, stated_count, change_count};
ghost use Rattle.rk_bytes.specs.Reading.{rest_of};
ghost use Rattle.rk_batch.specs.Parts.{part_at};
ghost use Rattle.rk_batch.specs.Seen.{part_of, parts_left, counted, seen_whole};

use crate::part::{RawPart, read_part};
use crate::{BatchFault, BatchRecord};
use rk_bytes::Cursor;
use std::marker::Model;

/// The length of a batch's header in bytes: its sequence number (8) and its count of changes (4).
const HEADER_LEN: usize = 12;

/// The greatest sequence number.
const TOP: u64 = (1 << 56) - 1;

/// A batch that reads. Contracts see it as the batch and its parts that weren't handed out yet.
#[derive(Debug, Drop)]
pub struct BatchView<'a> {
    bytes: &'a [u8],
    /// At the next part.
    cursor: Cursor<'a>,
    /// The sequence number of the next change.
    next: u64,
    sequence: u64,
    count: u32,
}

impl<'a> Model for BatchView<'a> {
    ghost use Rattle.std.specs.Prelude.{length};
    ghost use Rattle.rk_bytes.specs.Model.WriteBatch.{batch_of};
    ghost use Rattle.rk_bytes.specs.Reading.{rest_of};
    ghost use Rattle.rk_batch.specs.Seen.{BatchSeen, parts_left, parts_or_none, batch_or_none};
    ghost use Rattle.rk_batch.specs.Read.{IsRead};

    ghost Value = { BatchSeen };

    ghost view = { λ v. record { batch = batch_or_none (batch_of v.bytes.now); left = parts_or_none (parts_left (length v.bytes.now) v.next (rest_of v.cursor)) } };

    ghost invariant = { λ v. IsRead v.bytes.now v.cursor v.next v.sequence v.count };
}

impl<'a> BatchView<'a> {
    ghost use Rattle.rk_batch.specs.Read.{ReadAs};

    /// Reads the bytes as a batch, with all of its parts to be handed out, or gives the first fault.
    /// Takes no memory.
    pub fn read(bytes: &'a [u8]) -> Result<BatchView<'a>, BatchFault>
        ensures { ReadAs result (batch_of bytes.now) }
    {
        if bytes.len() < HEADER_LEN {
            return Err(BatchFault::TooSmall);
        }
        let sequence = stated_sequence(bytes);
        let count = stated_count(bytes);
        let found = count_changes(after_header(bytes))?;
        if u64::from(count) != found {
            return Err(BatchFault::WrongCount {
                stated: count,
                found,
            });
        }
        if sequence > TOP || sequence + found > TOP + 1 {
            return Err(BatchFault::SequenceTop);
        }
        Ok(BatchView {
            bytes,
            cursor: after_header(bytes),
            next: sequence,
            sequence,
            count,
        })
    }

    /// The batch's sequence number, which is that of its first change.
    pub fn sequence(&self) -> u64
        ensures { result ≡ self.now.batch.sequence }
    {
        self.sequence
    }

    /// How many changes the batch has.
    pub fn count(&self) -> u32
        ensures { result ≡ change_count self.now.batch.parts }
    {
        self.count
    }

    /// The next part, or `None` where none is left. Takes no memory.
    pub fn next_record(&mut self) -> Option<BatchRecord<'a>>
        ensures given { IfSome result (λ part. self.old.left ≡ part_of part ∷ self.new.left) }
        ensures none { IfNone result ((self.old.left ≡ []) × (self.new.left ≡ [])) }
        ensures batch { self.new.batch ≡ self.old.batch }
    {
        if self.cursor.rest().is_empty() {
            return None;
        }
        let place = self.cursor.place() as u64;
        match read_part(&mut self.cursor) {
            Ok(raw) => {
                let (record, next) = numbered(raw, place, self.next);
                self.next = next;
                Some(record)
            }
            Err(_) => unreachable!(),
        }
    }

    /// All parts are to be handed out again.
    pub fn restart(&mut self)
        ensures { self.new ≡ seen_whole self.old.batch }
    {
        self.cursor = after_header(self.bytes);
        self.next = self.sequence;
    }
}

/// The part with its place and, of a change, its sequence number, and the sequence number of the next
/// change.
fn numbered(raw: RawPart<'_>, place: u64, sequence: u64) -> (BatchRecord<'_>, u64)
    requires { sequence < 2 ^ 64 - 1 }
    ensures part { part_of result.0 ≡ part_at place sequence raw.entry }
    ensures next { result.1 ≡ sequence + change_count (part_at place sequence raw.entry ∷ []) }
{
    match raw {
        RawPart::Change {
            family,
            kind,
            key,
            value,
        } => {
            let change = BatchRecord::Change {
                place,
                family,
                kind,
                key,
                value,
                sequence,
            };
            (change, sequence + 1)
        }
        RawPart::LogBytes(bytes) => (BatchRecord::LogBytes { place, bytes }, sequence),
        RawPart::Noop => (BatchRecord::Noop { place }, sequence),
    }
}

/// The sequence number in the header of a batch.
fn stated_sequence(bytes: &[u8]) -> u64
    requires { HEADER_LEN ≤ length bytes.now }
    ensures { result ≡ batch_sequence bytes.now }
{
    u64::from_le_bytes([
        bytes[0], bytes[1], bytes[2], bytes[3], bytes[4], bytes[5], bytes[6], bytes[7],
    ])
}

/// The count of changes in the header of a batch.
fn stated_count(bytes: &[u8]) -> u32
    requires { HEADER_LEN ≤ length bytes.now }
    ensures { result ≡ stated_count bytes.now }
{
    u32::from_le_bytes([bytes[8], bytes[9], bytes[10], bytes[11]])
}

/// A cursor before the first part of a batch.
fn after_header(bytes: &[u8]) -> Cursor<'_>
    requires { HEADER_LEN ≤ length bytes.now }
    ensures { result ≡ record { bytes = bytes.now; place = HEADER_LEN } }
{
    let mut cursor = Cursor::new(bytes);
    match cursor.take(HEADER_LEN) {
        Ok(_) => cursor,
        Err(_) => unreachable!(),
    }
}

/// How many of the parts from the cursor on are changes, or the first fault.
fn count_changes(mut cursor: Cursor<'_>) -> Result<u64, BatchFault>
    requires { cursor.place ≤ length cursor.bytes }
    ensures { (sequence : ℕ) → result ≡ counted (parts_left (length cursor.entry.bytes) sequence (rest_of cursor.entry)) }
{
    let mut count = 0;
    while !cursor.rest().is_empty() {
        let raw = read_part(&mut cursor)?;
        count += changes_in(&raw);
    }
    Ok(count)
}

/// How many changes a part is: one or none.
fn changes_in(raw: &RawPart<'_>) -> u64
    ensures count { (place sequence : ℕ) → result ≡ change_count (part_at place sequence raw.now ∷ []) }
    ensures few { result ≤ 1 }
{
    match raw {
        RawPart::Change { .. } => 1,
        RawPart::LogBytes(_) | RawPart::Noop => 0,
    }
}

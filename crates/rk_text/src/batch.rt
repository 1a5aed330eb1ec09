//! The lines of write batches.
ghost use Rattle.std.specs.Prelude.{◌≡◌, ◌∷◌, ◌++◌, map, false, IfOk, OnOk};
ghost use Rattle.rk_bytes.specs.Model.WriteBatch.{change, log_bytes};
ghost use Rattle.rk_bytes.specs.Model.Lines.{bad_line, batch_fault_words, batch_line, batch_lines, change_word, change_value, key_at, part_line};
ghost use Rattle.rk_bytes.specs.Model.Output.{joined};
ghost use Rattle.rk_batch.specs.Seen.{part_of};

use crate::Line;
use rk_batch::{BatchFault, BatchRecord, BatchView};
use rk_bytes::model::Kind;
use rk_bytes::{Bytes, Memory};
use std::alloc::Global;

/// The lines of the batch that the bytes are, one after the other: that of the batch and those of its
/// parts, or, where the bytes don't read, the line of the first fault. `Memory` comes only where memory
/// runs out.
pub fn batch_lines(alloc: Global, bytes: &[u8], hex: bool) -> Result<Bytes, Memory>
    ensures { IfOk result (λ lines. lines ≡ joined (batch_lines hex bytes.now)) }
{
    let mut lines = Line::new(alloc);
    lines.put_batch_lines(bytes, hex)?;
    Ok(lines.into_bytes())
}

impl Line {
    /// Makes this the line of a batch, with its sequence number and its count of changes. `Memory`
    /// comes only where memory runs out.
    pub fn set_batch(&mut self, view: &BatchView<'_>) -> Result<(), Memory>
        ensures { OnOk result (self.new ≡ batch_line view.now.batch) }
    {
        self.clear();
        self.put_batch(view)
    }

    /// Makes this the line of a part of a batch, with its bytes in hexadecimal or between quotation
    /// marks. `Memory` comes only where memory runs out.
    pub fn set_part(&mut self, part: &BatchRecord<'_>, hex: bool) -> Result<(), Memory>
        ensures { OnOk result (self.new ≡ part_line hex (part_of part.now)) }
    {
        self.clear();
        self.put_part(part, hex)
    }

    /// Makes this the only line of what doesn't read as a batch, with the first fault. `Memory` comes
    /// only where memory runs out.
    pub fn set_bad_batch(&mut self, fault: BatchFault) -> Result<(), Memory>
        ensures { OnOk result (self.new ≡ bad_line (batch_fault_words fault)) }
    {
        self.clear();
        self.put_bad_batch(fault)
    }

    /// Puts the lines of the batch that the bytes are at the end, or that of the first fault.
    fn put_batch_lines(&mut self, bytes: &[u8], hex: bool) -> Result<(), Memory>
        ensures { OnOk result (self.new ≡ self.old ++ joined (batch_lines hex bytes.now)) }
    {
        match BatchView::read(bytes) {
            Ok(view) => self.put_view(view, hex),
            Err(fault) => self.put_bad_batch(fault),
        }
    }

    /// Puts the line of a batch at the end, and those of its parts that weren't handed out yet.
    fn put_view(&mut self, view: BatchView<'_>, hex: bool) -> Result<(), Memory>
        ensures { OnOk result (self.new ≡ self.old ++ joined (batch_line view.entry.batch ∷ map (part_line hex) view.entry.left)) }
    {
        self.put_batch(&view)?;
        self.put_parts(view, hex)
    }

    /// Puts the lines of the parts that weren't handed out yet at the end.
    fn put_parts(&mut self, mut view: BatchView<'_>, hex: bool) -> Result<(), Memory>
        ensures { OnOk result (self.new ≡ self.old ++ joined (map (part_line hex) view.entry.left)) }
    {
        while let Some(part) = view.next_record() {
            self.put_part(&part, hex)?;
        }
        Ok(())
    }

    /// Puts the line of a batch at the end.
    fn put_batch(&mut self, view: &BatchView<'_>) -> Result<(), Memory>
        ensures { OnOk result (self.new ≡ self.old ++ batch_line view.now.batch) }
    {
        self.put_with_number(b"  batch", view.sequence())?;
        self.put_number(u64::from(view.count()))?;
        self.end()
    }

    /// Puts the line of a part at the end.
    fn put_part(&mut self, part: &BatchRecord<'_>, hex: bool) -> Result<(), Memory>
        ensures { OnOk result (self.new ≡ self.old ++ part_line hex (part_of part.now)) }
    {
        match *part {
            BatchRecord::Change {
                place: _,
                family,
                kind,
                key,
                value,
                sequence,
            } => self.put_change(family, kind, key, value, sequence, hex),
            BatchRecord::LogBytes { place: _, bytes } => self.put_log_bytes(bytes),
            BatchRecord::Noop { place: _ } => self.put(b"  noop\n"),
        }
    }

    /// Puts the line of a change at the end, which doesn't show its place.
    fn put_change(
        &mut self,
        family: u32,
        kind: Kind,
        key: &[u8],
        value: &[u8],
        sequence: u64,
        hex: bool,
    ) -> Result<(), Memory>
        ensures { OnOk result (self.new ≡ self.old ++ part_line hex (change 0 (record { family = family; key = key.now; sequence = sequence; kind = kind; value = value.now }))) }
    {
        self.put(b"  ")?;
        self.put(change_word(kind).as_bytes())?;
        self.put_number(u64::from(family))?;
        self.put(b" ")?;
        self.put_key(key, sequence, hex)?;
        self.put_value(kind, value, hex)?;
        self.end()
    }

    /// Puts the line of bytes for the log alone at the end, which shows their length.
    fn put_log_bytes(&mut self, bytes: &[u8]) -> Result<(), Memory>
        ensures { OnOk result (self.new ≡ self.old ++ part_line false (log_bytes 0 bytes.now)) }
    {
        self.put_with_number(b"  log_bytes", bytes.len() as u64)?;
        self.end()
    }

    /// Puts a user key and its sequence number at the end.
    pub(crate) fn put_key(&mut self, key: &[u8], sequence: u64, hex: bool) -> Result<(), Memory>
        ensures { OnOk result (self.new ≡ self.old ++ key_at hex key.now sequence) }
    {
        self.put_quoted(key, hex)?;
        self.put(b"@")?;
        self.put_decimal(sequence)
    }

    /// Puts the value of a change of this kind at the end: what it puts or merges, the end of the keys
    /// that it deletes, or nothing.
    fn put_value(&mut self, kind: Kind, value: &[u8], hex: bool) -> Result<(), Memory>
        ensures { OnOk result (self.new ≡ self.old ++ change_value hex kind value.now) }
    {
        match kind {
            Kind::Deletion | Kind::SingleDeletion => Ok(()),
            Kind::Value | Kind::Merge => {
                self.put(b" => ")?;
                self.put_quoted(value, hex)
            }
            Kind::RangeDeletion => {
                self.put(b" .. ")?;
                self.put_quoted(value, hex)
            }
        }
    }

    /// Puts the line of a fault at the end.
    fn put_bad_batch(&mut self, fault: BatchFault) -> Result<(), Memory>
        ensures { OnOk result (self.new ≡ self.old ++ bad_line (batch_fault_words fault)) }
    {
        self.put(b"  bad ")?;
        self.put_fault(fault)?;
        self.end()
    }

    /// Puts a fault at the end.
    pub(crate) fn put_fault(&mut self, fault: BatchFault) -> Result<(), Memory>
        ensures { OnOk result (self.new ≡ self.old ++ batch_fault_words fault) }
    {
        match fault {
            BatchFault::TooSmall => self.put(b"TooSmall"),
            BatchFault::BadRecord(place) => self.put_with_number(b"BadRecord", place),
            BatchFault::UnsupportedTag(tag) => {
                self.put_with_number(b"UnsupportedTag", u64::from(tag))
            }
            BatchFault::WrongCount { stated, found } => self.put_wrong_count(stated, found),
            BatchFault::SequenceTop => self.put(b"SequenceTop"),
        }
    }

    /// Puts the fault of a wrong count at the end.
    fn put_wrong_count(&mut self, stated: u32, found: u64) -> Result<(), Memory>
        ensures { OnOk result (self.new ≡ self.old ++ batch_fault_words (BatchFault.WrongCount stated found)) }
    {
        self.put_with_number(b"WrongCount", u64::from(stated))?;
        self.put_number(found)
    }
}

/// What a change of this kind does.
fn change_word(kind: Kind) -> &'static str
    ensures { result.now ≡ change_word kind }
{
    match kind {
        Kind::Deletion => "delete",
        Kind::Value => "put",
        Kind::Merge => "merge",
        Kind::SingleDeletion => "single_delete",
        Kind::RangeDeletion => "range_delete",
    }
}

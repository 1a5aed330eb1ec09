//! The lines of version edits.
ghost use Rattle.std.specs.Prelude.{◌≡◌, ◌≤◌, ◌++◌, length, map, codes, false, IfOk, OnOk};
ghost use Rattle.rk_bytes.specs.Model.VersionEdit.{compact_cursor, delete_file, add_file, wal_add, ignored};
ghost use Rattle.rk_bytes.specs.Model.Lines.{inner_line, bad_line, key_text, quoted, then_number, edit_fault_words, field_words, seqs_words, synced_words, edit_lines};
ghost use Rattle.rk_bytes.specs.Model.Output.{joined};
ghost use Rattle.rk_edit.specs.Fields.{new_file, field_of, HasWholeKeys};

use crate::Line;
use rk_bytes::{Bytes, Memory};
use rk_edit::{AddFile, EditFault, EditView, Field, Seqs};
use std::alloc::Global;

/// The lines of the version edit that the bytes are, one after the other: those of its fields, or,
/// where the bytes don't read, the line of the first fault. `Memory` comes only where memory runs out.
pub fn edit_lines(alloc: Global, bytes: &[u8], hex: bool) -> Result<Bytes, Memory>
    ensures { IfOk result (λ lines. lines ≡ joined (edit_lines hex bytes.now)) }
{
    let mut lines = Line::new(alloc);
    lines.put_edit_lines(bytes, hex)?;
    Ok(lines.into_bytes())
}

impl Line {
    /// Makes this the line of a field of a version edit, with its bytes in hexadecimal or between
    /// quotation marks. Its internal keys have at least 8 bytes, as those of each field that is read.
    /// `Memory` comes only where memory runs out.
    pub fn set_field(&mut self, field: &Field<'_>, hex: bool) -> Result<(), Memory>
        requires { HasWholeKeys (field_of field.now) }
        ensures { OnOk result (self.new ≡ inner_line (field_words hex (field_of field.now))) }
    {
        self.clear();
        self.put_field(field, hex)
    }

    /// Makes this the only line of what doesn't read as a version edit, with the first fault. `Memory`
    /// comes only where memory runs out.
    pub fn set_bad_edit(&mut self, fault: EditFault) -> Result<(), Memory>
        ensures { OnOk result (self.new ≡ bad_line (edit_fault_words fault)) }
    {
        self.clear();
        self.put_bad_edit(fault)
    }

    /// Puts the lines of the version edit that the bytes are at the end, or that of the first fault.
    fn put_edit_lines(&mut self, bytes: &[u8], hex: bool) -> Result<(), Memory>
        ensures { OnOk result (self.new ≡ self.old ++ joined (edit_lines hex bytes.now)) }
    {
        match EditView::read(bytes) {
            Ok(view) => self.put_fields(view, hex),
            Err(fault) => self.put_bad_edit(fault),
        }
    }

    /// Puts the lines of the fields that weren't handed out yet at the end.
    fn put_fields(&mut self, mut view: EditView<'_>, hex: bool) -> Result<(), Memory>
        ensures { OnOk result (self.new ≡ self.old ++ joined (map (λ field. inner_line (field_words hex field)) view.entry)) }
    {
        while let Some(field) = view.next_field() {
            self.put_field(&field, hex)?;
        }
        Ok(())
    }

    /// Puts the line of a field at the end.
    fn put_field(&mut self, field: &Field<'_>, hex: bool) -> Result<(), Memory>
        requires { HasWholeKeys (field_of field.now) }
        ensures { OnOk result (self.new ≡ self.old ++ inner_line (field_words hex (field_of field.now))) }
    {
        self.put(b"  ")?;
        self.put_field_words(field, hex)?;
        self.end()
    }

    /// Puts what a field says at the end.
    fn put_field_words(&mut self, field: &Field<'_>, hex: bool) -> Result<(), Memory>
        requires { HasWholeKeys (field_of field.now) }
        ensures { OnOk result (self.new ≡ self.old ++ field_words hex (field_of field.now)) }
    {
        match *field {
            Field::Comparator(name) => self.put_with_quoted(b"comparator ", name, hex),
            Field::LogNumber(number) => self.put_with_number(b"log_number", number),
            Field::NextFile(number) => self.put_with_number(b"next_file", number),
            Field::LastSequence(sequence) => self.put_with_number(b"last_sequence", sequence),
            Field::CompactCursor { level, key } => self.put_compact_cursor(level, key, hex),
            Field::DeleteFile { level, number } => self.put_delete_file(level, number),
            Field::AddFile(file) => self.put_add_file(&file, hex),
            Field::PreviousLog(number) => self.put_with_number(b"previous_log", number),
            Field::LeastLog(number) => self.put_with_number(b"least_log", number),
            Field::Family(id) => self.put_with_id(b"family", id),
            Field::FamilyAdd(name) => self.put_with_quoted(b"family_add ", name, hex),
            Field::FamilyDrop => self.put(b"family_drop"),
            Field::GreatestFamily(id) => self.put_with_id(b"greatest_family", id),
            Field::Group(left) => self.put_with_id(b"group", left),
            Field::WalAdd { log, synced } => self.put_wal_add(log, synced),
            Field::WalDelete(log) => self.put_with_number(b"wal_delete", log),
            Field::Ignored { tag, bytes } => self.put_ignored(tag, bytes),
        }
    }

    /// Puts the word at the end, and these bytes as they are shown.
    fn put_with_quoted(&mut self, word: &[u8], bytes: &[u8], hex: bool) -> Result<(), Memory>
        ensures { OnOk result (self.new ≡ self.old ++ (word.now ++ quoted hex bytes.now)) }
    {
        self.put(word)?;
        self.put_quoted(bytes, hex)
    }

    /// Puts how far the compactions of a level came at the end.
    fn put_compact_cursor(&mut self, level: u32, key: &[u8], hex: bool) -> Result<(), Memory>
        requires { 8 ≤ length key.now }
        ensures { OnOk result (self.new ≡ self.old ++ field_words hex (compact_cursor level key.now)) }
    {
        self.put_with_id(b"compact_cursor", level)?;
        self.put_bound(key, hex)
    }

    /// Puts a deleted file at the end.
    fn put_delete_file(&mut self, level: u32, number: u64) -> Result<(), Memory>
        ensures { OnOk result (self.new ≡ self.old ++ field_words false (delete_file level number)) }
    {
        self.put_with_id(b"delete_file", level)?;
        self.put_number(number)
    }

    /// Puts an added file at the end.
    fn put_add_file(&mut self, file: &AddFile<'_>, hex: bool) -> Result<(), Memory>
        requires { HasWholeKeys (add_file (new_file file.now)) }
        ensures { OnOk result (self.new ≡ self.old ++ field_words hex (add_file (new_file file.now))) }
    {
        self.put_with_id(b"add_file", file.level)?;
        self.put_number(file.number)?;
        self.put_number(file.size)?;
        self.put_bound(file.smallest, hex)?;
        self.put_bound(file.largest, hex)?;
        self.put_seqs(file.seqs)
    }

    /// Puts a space and an internal key at the end.
    fn put_bound(&mut self, key: &[u8], hex: bool) -> Result<(), Memory>
        requires { 8 ≤ length key.now }
        ensures { OnOk result (self.new ≡ self.old ++ codes " " ++ key_text hex key.now) }
    {
        self.put(b" ")?;
        self.put_internal_key(key, hex)
    }

    /// Puts the sequence numbers of an added file at the end, where they are stated.
    fn put_seqs(&mut self, seqs: Option<Seqs>) -> Result<(), Memory>
        ensures { OnOk result (self.new ≡ self.old ++ seqs_words seqs) }
    {
        match seqs {
            None => Ok(()),
            Some(Seqs { least, greatest }) => {
                self.put_with_number(b" seqs", least)?;
                self.put_number(greatest)
            }
        }
    }

    /// Puts a tracked log at the end, and how many of its bytes are synced, where that is stated.
    fn put_wal_add(&mut self, log: u64, synced: Option<u64>) -> Result<(), Memory>
        ensures { OnOk result (self.new ≡ self.old ++ field_words false (wal_add log synced)) }
    {
        self.put_with_number(b"wal_add", log)?;
        match synced {
            None => Ok(()),
            Some(len) => self.put_with_number(b" synced", len),
        }
    }

    /// Puts an ignored field at the end, of which the tag and the length are shown.
    fn put_ignored(&mut self, tag: u32, bytes: &[u8]) -> Result<(), Memory>
        ensures { OnOk result (self.new ≡ self.old ++ field_words false (ignored tag bytes.now)) }
    {
        self.put_with_id(b"ignored", tag)?;
        self.put_number(bytes.len() as u64)
    }

    /// Puts the line of a fault at the end.
    fn put_bad_edit(&mut self, fault: EditFault) -> Result<(), Memory>
        ensures { OnOk result (self.new ≡ self.old ++ bad_line (edit_fault_words fault)) }
    {
        self.put(b"  bad ")?;
        self.put_edit_fault(fault)?;
        self.end()
    }

    /// Puts a fault at the end.
    pub(crate) fn put_edit_fault(&mut self, fault: EditFault) -> Result<(), Memory>
        ensures { OnOk result (self.new ≡ self.old ++ edit_fault_words fault) }
    {
        match fault {
            EditFault::UnknownTag { tag, place } => self.put_at(b"UnknownTag", tag, place),
            EditFault::UnsupportedTag { tag, place } => self.put_at(b"UnsupportedTag", tag, place),
            EditFault::BadField { tag, place } => self.put_at(b"BadField", tag, place),
        }
    }

    /// Puts the word, a tag and its place at the end.
    fn put_at(&mut self, word: &[u8], tag: u32, place: u64) -> Result<(), Memory>
        ensures { OnOk result (self.new ≡ self.old ++ (word.now ++ then_number tag ++ then_number place)) }
    {
        self.put_with_id(word, tag)?;
        self.put_number(place)
    }
}

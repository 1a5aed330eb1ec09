//! The lines of refusals.
ghost use Rattle.std.specs.Prelude.{◌≡◌, ◌++◌, OnOk};
ghost use Rattle.rk_bytes.specs.Model.Lines.{then_number, refusal_line, refused_words, open_err_words, no_log_words, no_table_words, no_family_words, current_fault_words, manifest_fault_words, damaged_words, unsupported_words, wal_err_words, manifest_why_words, edit_why_words, apply_fault_words, which_word, table_why_word, table_what_words, log_what_words, unsupported_log_words, wal_why_words};

use crate::Line;
use crate::item::why_word;
use rk_bytes::Memory;
use rk_bytes::model::{
    ApplyFault, CurrentFault, EditWhy, LogWhat, ManifestFault, ManifestWhy, OpenErr, TableWhat,
    TableWhy, WalErr, WalWhy, Which,
};

impl Line {
    /// Makes this the line that says why a database isn't opened. `Memory` comes only where memory runs
    /// out.
    pub fn set_not_opened(&mut self, why: OpenErr) -> Result<(), Memory>
        ensures { OnOk result (self.new ≡ refusal_line (open_err_words why)) }
    {
        self.clear();
        self.put_refused(why)?;
        self.end()
    }

    /// Makes this the line that says that the log with this number isn't there. `Memory` comes only where
    /// memory runs out.
    pub fn set_no_log(&mut self, number: u64) -> Result<(), Memory>
        ensures { OnOk result (self.new ≡ refusal_line (no_log_words number)) }
    {
        self.clear();
        self.put_with_number(b"refused: NoLog", number)?;
        self.end()
    }

    /// Makes this the line that says that the table with this number isn't there. `Memory` comes only
    /// where memory runs out.
    pub fn set_no_table(&mut self, number: u64) -> Result<(), Memory>
        ensures { OnOk result (self.new ≡ refusal_line (no_table_words number)) }
    {
        self.clear();
        self.put_with_number(b"refused: NoTable", number)?;
        self.end()
    }

    /// Makes this the line that says that no live family has this name, which stands between quotation
    /// marks. `Memory` comes only where memory runs out.
    pub fn set_no_family(&mut self, name: &[u8]) -> Result<(), Memory>
        ensures { OnOk result (self.new ≡ refusal_line (no_family_words name.now)) }
    {
        self.clear();
        self.put(b"refused: NoFamily ")?;
        self.put_quoted(name, false)?;
        self.end()
    }

    /// Puts that a database isn't opened, and why, at the end.
    pub(crate) fn put_refused(&mut self, why: OpenErr) -> Result<(), Memory>
        ensures { OnOk result (self.new ≡ self.old ++ refused_words (open_err_words why)) }
    {
        self.put(b"refused: ")?;
        self.put_open_err(why)
    }

    /// Puts why a database isn't opened at the end.
    fn put_open_err(&mut self, why: OpenErr) -> Result<(), Memory>
        ensures { OnOk result (self.new ≡ self.old ++ open_err_words why) }
    {
        match why {
            OpenErr::NoCurrent => self.put(b"NoCurrent"),
            OpenErr::BadCurrent(why) => self.put_after(b"BadCurrent ", current_fault_word(why)),
            OpenErr::NoManifest(n) => self.put_with_number(b"NoManifest", n),
            OpenErr::Manifest(why) => self.put_manifest_fault(why),
            OpenErr::MissingTable(n) => self.put_with_number(b"MissingTable", n),
            OpenErr::SizeMismatch { n, stated, found } => {
                self.put_lengths(b"SizeMismatch", n, stated, found)
            }
            OpenErr::DamagedTable { n, why, place } => self.put_damaged(n, why, place),
            OpenErr::UnsupportedTable { n, what } => self.put_unsupported(n, what),
            OpenErr::OutOfBounds(n) => self.put_with_number(b"OutOfBounds", n),
            OpenErr::MissingLog(n) => self.put_with_number(b"MissingLog", n),
            OpenErr::ShortLog { n, stated, found } => {
                self.put_lengths(b"ShortLog", n, stated, found)
            }
            OpenErr::Wal(why) => self.put_wal_err(why),
            OpenErr::NoUsableManifest => self.put(b"NoUsableManifest"),
            OpenErr::DiskFault => self.put(b"DiskFault"),
            OpenErr::Memory => self.put(b"Memory"),
        }
    }

    /// Puts one word after another at the end.
    fn put_after(&mut self, before: &[u8], word: &str) -> Result<(), Memory>
        ensures { OnOk result (self.new ≡ self.old ++ (before.now ++ word.now)) }
    {
        self.put(before)?;
        self.put(word.as_bytes())
    }

    /// Puts the word, a file's number and two lengths at the end.
    fn put_lengths(&mut self, word: &[u8], n: u64, stated: u64, found: u64) -> Result<(), Memory>
        ensures { OnOk result (self.new ≡ self.old ++ (word.now ++ then_number n ++ then_number stated ++ then_number found)) }
    {
        self.put_with_number(word, n)?;
        self.put_number(stated)?;
        self.put_number(found)
    }

    /// Puts the fault of a manifest at the end.
    fn put_manifest_fault(&mut self, fault: ManifestFault) -> Result<(), Memory>
        ensures { OnOk result (self.new ≡ self.old ++ manifest_fault_words fault) }
    {
        match fault {
            ManifestFault::Damaged { place, why } => self.put_manifest_damage(place, why),
            ManifestFault::BadEdit { unit, why } => {
                self.put_led(b"BadEdit", unit)?;
                self.put_edit_why(why)
            }
            ManifestFault::BadGroup { unit } => self.put_with_number(b"BadGroup", unit),
            ManifestFault::NoFields(which) => self.put_after(b"NoFields ", which_word(which)),
        }
    }

    /// Puts where a manifest's log is damaged, and what there, at the end.
    fn put_manifest_damage(&mut self, place: u64, why: ManifestWhy) -> Result<(), Memory>
        ensures { OnOk result (self.new ≡ self.old ++ manifest_fault_words (ManifestFault.Damaged place why)) }
    {
        self.put_led(b"ManifestDamaged", place)?;
        self.put_manifest_why(why)
    }

    /// Puts what in a manifest's log is damaged at the end.
    fn put_manifest_why(&mut self, why: ManifestWhy) -> Result<(), Memory>
        ensures { OnOk result (self.new ≡ self.old ++ manifest_why_words why) }
    {
        match why {
            ManifestWhy::Gap(why) => self.put(why_word(why).as_bytes()),
            ManifestWhy::Unsupported(kind) => { self.put_with_byte(b"Unsupported", kind) }
        }
    }

    /// Puts why an edit is bad at the end.
    fn put_edit_why(&mut self, why: EditWhy) -> Result<(), Memory>
        ensures { OnOk result (self.new ≡ self.old ++ edit_why_words why) }
    {
        match why {
            EditWhy::Read(fault) => self.put_edit_fault(fault),
            EditWhy::Apply(fault) => self.put_apply_fault(fault),
        }
    }

    /// Puts why a unit isn't applied at the end.
    fn put_apply_fault(&mut self, fault: ApplyFault) -> Result<(), Memory>
        ensures { OnOk result (self.new ≡ self.old ++ apply_fault_words fault) }
    {
        match fault {
            ApplyFault::UnsupportedComparator => self.put(b"UnsupportedComparator"),
            ApplyFault::FamilyExists(id) => self.put_with_id(b"FamilyExists", id),
            ApplyFault::UnknownFamily(id) => self.put_with_id(b"UnknownFamily", id),
            ApplyFault::DeleteAbsent(n) => self.put_with_number(b"DeleteAbsent", n),
            ApplyFault::AddPresent(n) => self.put_with_number(b"AddPresent", n),
            ApplyFault::Overlap { family, level } => {
                self.put_numbers(b"Overlap", u64::from(family), u64::from(level))
            }
            ApplyFault::Memory => self.put(b"Memory"),
        }
    }

    /// Puts where a table is damaged, and why, at the end.
    fn put_damaged(&mut self, n: u64, why: TableWhy, place: u64) -> Result<(), Memory>
        ensures { OnOk result (self.new ≡ self.old ++ damaged_words n why place) }
    {
        self.put_led(b"DamagedTable", n)?;
        self.put_with_number(table_why_word(why).as_bytes(), place)
    }

    /// Puts what in a table isn't supported at the end.
    fn put_unsupported(&mut self, n: u64, what: TableWhat) -> Result<(), Memory>
        ensures { OnOk result (self.new ≡ self.old ++ unsupported_words n what) }
    {
        self.put_led(b"UnsupportedTable", n)?;
        self.put_table_what(what)
    }

    /// Puts the name of what in a table isn't supported at the end.
    fn put_table_what(&mut self, what: TableWhat) -> Result<(), Memory>
        ensures { OnOk result (self.new ≡ self.old ++ table_what_words what) }
    {
        match what {
            TableWhat::Version(version) => self.put_with_id(b"Version", version),
            TableWhat::Checksum(kind) => self.put_with_byte(b"Checksum", kind),
            TableWhat::Compressed(kind) => self.put_with_byte(b"Compressed", kind),
            TableWhat::Comparator => self.put(b"Comparator"),
            TableWhat::IndexType(kind) => self.put_with_id(b"IndexType", kind),
            TableWhat::External => self.put(b"External"),
            TableWhat::HashIndex => self.put(b"HashIndex"),
            TableWhat::RecordKind(kind) => self.put_with_byte(b"RecordKind", kind),
        }
    }

    /// Puts why logs aren't replayed at the end.
    fn put_wal_err(&mut self, why: WalErr) -> Result<(), Memory>
        ensures { OnOk result (self.new ≡ self.old ++ wal_err_words why) }
    {
        match why {
            WalErr::Corrupt { log, place, why } => {
                self.put_with_number(b"Corrupt", log)?;
                self.put_number(place)?;
                self.put(b" ")?;
                self.put_wal_why(why)
            }
            WalErr::FamilyAhead { family, log } => {
                self.put_numbers(b"FamilyAhead", u64::from(family), log)
            }
            WalErr::UnsupportedLog { log, what } => self.put_unsupported_log(log, what),
            WalErr::Memory => self.put(b"Memory"),
        }
    }

    /// Puts what in a log is damaged at the end.
    fn put_wal_why(&mut self, why: WalWhy) -> Result<(), Memory>
        ensures { OnOk result (self.new ≡ self.old ++ wal_why_words why) }
    {
        match why {
            WalWhy::Gap(why) => self.put(why_word(why).as_bytes()),
            WalWhy::Torn => self.put(b"Torn"),
            WalWhy::Batch(fault) => self.put_fault(fault),
        }
    }

    /// Puts what in a log isn't supported at the end.
    fn put_unsupported_log(&mut self, log: u64, what: LogWhat) -> Result<(), Memory>
        ensures { OnOk result (self.new ≡ self.old ++ unsupported_log_words log what) }
    {
        self.put_led(b"UnsupportedLog", log)?;
        self.put_log_what(what)
    }

    /// Puts the name of what in a log isn't supported at the end.
    fn put_log_what(&mut self, what: LogWhat) -> Result<(), Memory>
        ensures { OnOk result (self.new ≡ self.old ++ log_what_words what) }
    {
        match what {
            LogWhat::RecordType(kind) => self.put_with_byte(b"type", kind),
            LogWhat::Tag(tag) => self.put_with_byte(b"tag", tag),
        }
    }
}

/// Why `CURRENT` names no manifest.
fn current_fault_word(why: CurrentFault) -> &'static str
    ensures { result.now ≡ current_fault_words why }
{
    match why {
        CurrentFault::NoNewline => "NoNewline",
        CurrentFault::Trailing => "Trailing",
        CurrentFault::NotManifest => "NotManifest",
    }
}

/// What no edit of a manifest states.
fn which_word(which: Which) -> &'static str
    ensures { result.now ≡ which_word which }
{
    match which {
        Which::LogNumber => "LogNumber",
        Which::NextFile => "NextFile",
        Which::LastSequence => "LastSequence",
    }
}

/// Why a table is damaged.
fn table_why_word(why: TableWhy) -> &'static str
    ensures { result.now ≡ table_why_word why }
{
    match why {
        TableWhy::FooterShort => "FooterShort",
        TableWhy::BadMagic => "BadMagic",
        TableWhy::BadHandle => "BadHandle",
        TableWhy::OutOfFile => "OutOfFile",
        TableWhy::Checksum => "Checksum",
        TableWhy::Block => "Block",
        TableWhy::BadProperty => "BadProperty",
        TableWhy::BadKey => "BadKey",
        TableWhy::BadOrder => "BadOrder",
        TableWhy::BadSeparator => "BadSeparator",
    }
}

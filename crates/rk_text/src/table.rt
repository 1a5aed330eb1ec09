//! The lines of one table.
ghost use Rattle.std.specs.Prelude.{◌≡◌, OnOk};
ghost use Rattle.rk_bytes.specs.Model.Lines.{good_line, entry_line, range_line, property_line};

use crate::Line;
use rk_bytes::Memory;
use rk_bytes::model::{Property, RangeDel, Record, TableRef};
use rk_ikey::kind_number;

impl Line {
    /// Makes this the line of a good table: its family, and how many records and range deletions it
    /// has. `Memory` comes only where memory runs out.
    pub fn set_good_table(&mut self, table: &TableRef) -> Result<(), Memory>
        ensures { OnOk result (self.new ≡ good_line table.now) }
    {
        self.clear();
        self.put_with_number(b"good: family", u64::from(table.family))?;
        self.put_with_number(b" entries", table.entries)?;
        self.put_with_number(b" ranges", table.ranges.as_slice().len() as u64)?;
        self.end()
    }

    /// Makes this the line of a table's record, with its bytes in hexadecimal or between quotation marks.
    /// `Memory` comes only where memory runs out.
    pub fn set_entry(&mut self, entry: &Record, hex: bool) -> Result<(), Memory>
        ensures { OnOk result (self.new ≡ entry_line hex entry.now) }
    {
        self.clear();
        self.put_key(entry.key.as_slice(), entry.sequence, hex)?;
        self.put(b":")?;
        self.put_decimal(u64::from(kind_number(entry.kind)))?;
        self.put(b" => ")?;
        self.put_quoted(entry.value.as_slice(), hex)?;
        self.end()
    }

    /// Makes this the line of a table's range deletion, with its bytes in hexadecimal or between quotation
    /// marks. `Memory` comes only where memory runs out.
    pub fn set_range(&mut self, range: &RangeDel, hex: bool) -> Result<(), Memory>
        ensures { OnOk result (self.new ≡ range_line hex range.now) }
    {
        self.clear();
        self.put(b"range ")?;
        self.put_key(range.start.as_slice(), range.sequence, hex)?;
        self.put(b" .. ")?;
        self.put_quoted(range.end.as_slice(), hex)?;
        self.end()
    }

    /// Makes this the line of a table's property, with its bytes in hexadecimal or between quotation marks.
    /// `Memory` comes only where memory runs out.
    pub fn set_property(&mut self, property: &Property, hex: bool) -> Result<(), Memory>
        ensures { OnOk result (self.new ≡ property_line hex property.now) }
    {
        self.clear();
        self.put_quoted(property.name.as_slice(), hex)?;
        self.put(b" = ")?;
        self.put_quoted(property.value.as_slice(), hex)?;
        self.end()
    }
}

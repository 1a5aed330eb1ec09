//! The lines of what a database shows.
ghost use Rattle.std.specs.Prelude.{◌≡◌, ◌++◌, OnOk, codes, flat_map};
ghost use Rattle.rk_bytes.specs.Model.KeyView.{merge};
ghost use Rattle.rk_bytes.specs.Model.Lines.{row_line, answer_line, answer_words, quoted, ok_line};
ghost use Rattle.rk_view.specs.Shown.{answer_of, row_shown};

use crate::Line;
use rk_bytes::{Bytes, Memory};
use rk_view::{Answer, Operands, Row};

impl Line {
    /// Makes this the line of a row of a scan, with its bytes in hexadecimal or between quotation marks.
    /// `Memory` comes only where memory runs out.
    pub fn set_row(&mut self, row: &Row<'_>, hex: bool) -> Result<(), Memory>
        ensures { OnOk result (self.new ≡ row_line hex (row_shown row.now)) }
    {
        self.clear();
        self.put_quoted(row.key, hex)?;
        self.put(b" => ")?;
        self.put_answer(&row.answer, hex)?;
        self.end()
    }

    /// Makes this the line that answers for one key, with its bytes in hexadecimal or between quotation
    /// marks. `Memory` comes only where memory runs out.
    pub fn set_answer(&mut self, answer: &Answer<'_>, hex: bool) -> Result<(), Memory>
        ensures { OnOk result (self.new ≡ answer_line hex (answer_of answer.now)) }
    {
        self.clear();
        self.put_answer(answer, hex)?;
        self.end()
    }

    /// Makes this the line of the counts of a database that was opened: its families, their files and its
    /// records. `Memory` comes only where memory runs out.
    pub fn set_counts(&mut self, families: u64, files: u64, records: u64) -> Result<(), Memory>
        ensures { OnOk result (self.new ≡ ok_line families files records) }
    {
        self.clear();
        self.put_with_number(b"ok: families", families)?;
        self.put_with_number(b" files", files)?;
        self.put_with_number(b" records", records)?;
        self.end()
    }

    /// Puts what is shown of a key at the end.
    fn put_answer(&mut self, answer: &Answer<'_>, hex: bool) -> Result<(), Memory>
        ensures { OnOk result (self.new ≡ self.old ++ answer_words hex (answer_of answer.now)) }
    {
        match answer {
            Answer::Found(value) => self.put_quoted(value, hex),
            Answer::Absent => self.put(b"not found"),
            Answer::Merge(operands) => self.put_merge(operands, hex),
        }
    }

    /// Puts what is to be merged at the end: the operands, the newest first, and their base.
    fn put_merge(&mut self, shown: &Operands, hex: bool) -> Result<(), Memory>
        ensures { OnOk result (self.new ≡ self.old ++ answer_words hex (merge shown.now.newest_first shown.now.base)) }
    {
        self.put(b"merge")?;
        self.put_operands(shown.newest_first.as_slice(), hex)?;
        self.put(b" base ")?;
        match &shown.base {
            None => self.put(b"none"),
            Some(value) => self.put_quoted(value.as_slice(), hex),
        }
    }

    /// Puts each operand at the end, after a space.
    fn put_operands(&mut self, operands: &[Bytes], hex: bool) -> Result<(), Memory>
        ensures { OnOk result (self.new ≡ self.old ++ flat_map (λ value. codes " " ++ quoted hex value) operands.now) }
    {
        for value in operands {
            self.put(b" ")?;
            self.put_quoted(value.as_slice(), hex)?;
        }
        Ok(())
    }
}

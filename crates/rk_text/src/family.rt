//! The lines of column families.
ghost use Rattle.std.specs.Prelude.{◌≡◌, OnOk};
ghost use Rattle.rk_bytes.specs.Model.Lines.{families_line};

use crate::Line;
use rk_bytes::Memory;
use rk_bytes::model::FamilyState;

impl Line {
    /// Makes this the line of a family of a version: its id, its name between quotation marks, its log
    /// number and how many tables it has. `Memory` comes only where memory runs out.
    pub fn set_family(&mut self, family: &FamilyState) -> Result<(), Memory>
        ensures { OnOk result (self.new ≡ families_line family.now) }
    {
        self.clear();
        self.put_with_id(b"family", family.id)?;
        self.put(b" ")?;
        self.put_quoted(family.name.as_slice(), false)?;
        self.put_with_number(b" log", family.log)?;
        self.put_with_number(b" files", family.files.as_slice().len() as u64)?;
        self.end()
    }
}

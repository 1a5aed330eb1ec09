//! The lines of what a database is opened to by best efforts.
ghost use Rattle.std.specs.Prelude.{◌≡◌, OnOk};
ghost use Rattle.rk_bytes.specs.Model.Lines.{manifest_line, point_line};

use crate::Line;
use rk_bytes::Memory;
use rk_bytes::model::Point;

impl Line {
    /// Makes this the line of the manifest with this number, of which so many units count. `Memory` comes
    /// only where memory runs out.
    pub fn set_manifest(&mut self, number: u64, units: u64) -> Result<(), Memory>
        ensures { OnOk result (self.new ≡ manifest_line number units) }
    {
        self.clear();
        self.put_with_number(b"manifest", number)?;
        self.put_with_number(b" units", units)?;
        self.end()
    }

    /// Makes this the line of a family's point: its id, and how many units count for it. `Memory` comes
    /// only where memory runs out.
    pub fn set_point(&mut self, point: &Point) -> Result<(), Memory>
        ensures { OnOk result (self.new ≡ point_line point.now) }
    {
        self.clear();
        self.put_with_id(b"point", point.family)?;
        self.put_number(point.at)?;
        self.end()
    }
}

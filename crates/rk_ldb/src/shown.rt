//! Lines of things of one kind, one after another.
ghost use Rattle.std.specs.Prelude.{◌≡◌, ℕ, Bool, List, map, OnOk};
ghost use Rattle.rk_ldb.specs.Stops.{TookUpTo, OutputStops};

use crate::lines::write_line;
use crate::stop::Stop;
use rk_bytes::Memory;
use rk_bytes::model::{FamilyState, Point, Property, RangeDel, Record};
use rk_disk::Sink;
use rk_text::Line;

/// What has a line of its own.
pub(crate) trait Shown {
    /// The line, with bytes in hexadecimal or between quotation marks.
    ghost shown: { Bool → Self → List ℕ };

    /// Makes this its line.
    fn set_in(&self, line: &mut Line, hex: bool) -> Result<(), Memory>
        ensures { OnOk result (line.new ≡ shown hex self.now) };
}

impl Shown for FamilyState {
    ghost use Rattle.rk_bytes.specs.Model.Lines.{families_line};

    ghost shown = { λ _ family. families_line family };

    /// A family's name stands between quotation marks in any case.
    fn set_in(&self, line: &mut Line, _hex: bool) -> Result<(), Memory> {
        line.set_family(self)
    }
}

impl Shown for Point {
    ghost use Rattle.rk_bytes.specs.Model.Lines.{point_line};

    ghost shown = { λ _ point. point_line point };

    /// A point has no bytes to show.
    fn set_in(&self, line: &mut Line, _hex: bool) -> Result<(), Memory> {
        line.set_point(self)
    }
}

impl Shown for Record {
    ghost use Rattle.rk_bytes.specs.Model.Lines.{entry_line};

    ghost shown = { entry_line };

    fn set_in(&self, line: &mut Line, hex: bool) -> Result<(), Memory> {
        line.set_entry(self, hex)
    }
}

impl Shown for RangeDel {
    ghost use Rattle.rk_bytes.specs.Model.Lines.{range_line};

    ghost shown = { range_line };

    fn set_in(&self, line: &mut Line, hex: bool) -> Result<(), Memory> {
        line.set_range(self, hex)
    }
}

impl Shown for Property {
    ghost use Rattle.rk_bytes.specs.Model.Lines.{property_line};

    ghost shown = { property_line };

    fn set_in(&self, line: &mut Line, hex: bool) -> Result<(), Memory> {
        line.set_property(self, hex)
    }
}

/// Writes the line of each thing, in their order.
pub(crate) fn write_shown<T: Shown, S: Sink>(
    things: &[T],
    hex: bool,
    line: &mut Line,
    out: &mut S,
) -> Result<(), Stop>
    ensures lines { TookUpTo (S.taken out.old) (S.taken out.new) (map (T.shown hex) things.now) result }
    ensures counts { OutputStops (S.faults out.old) (S.faults out.new) result }
{
    for thing in things {
        thing.set_in(line, hex)?;
        write_line(line.as_slice(), out)?;
    }
    Ok(())
}

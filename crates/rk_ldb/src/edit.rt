//! The lines of a version edit.
ghost use Rattle.std.specs.Prelude.{map};
ghost use Rattle.rk_bytes.specs.Model.Lines.{edit_lines, inner_line, field_words};
ghost use Rattle.rk_ldb.specs.Stops.{TookUpTo, OutputStops};
ghost use Rattle.rk_ldb.specs.Wrote.{field_line};

use crate::lines::write_line;
use crate::stop::Stop;
use rk_disk::Sink;
use rk_edit::EditView;
use rk_text::Line;

/// Writes the lines of a record's payload, which is a version edit or none.
pub(crate) fn write_edit<S: Sink>(
    payload: &[u8],
    hex: bool,
    line: &mut Line,
    out: &mut S,
) -> Result<(), Stop>
    ensures lines { TookUpTo (S.taken out.old) (S.taken out.new) (edit_lines hex payload.now) result }
    ensures counts { OutputStops (S.faults out.old) (S.faults out.new) result }
{
    match EditView::read(payload) {
        Ok(mut view) => write_fields(&mut view, hex, line, out),
        Err(fault) => {
            line.set_bad_edit(fault)?;
            write_line(line.as_slice(), out)
        }
    }
}

/// Writes a line for each field of an edit that is left, from the view of the edit.
fn write_fields<S: Sink>(
    view: &mut EditView<'_>,
    hex: bool,
    line: &mut Line,
    out: &mut S,
) -> Result<(), Stop>
    ensures lines { TookUpTo (S.taken out.old) (S.taken out.new) (map (field_line hex) view.old) result }
    ensures counts { OutputStops (S.faults out.old) (S.faults out.new) result }
{
    while let Some(field) = view.next_field() {
        line.set_field(&field, hex)?;
        write_line(line.as_slice(), out)?;
    }
    Ok(())
}

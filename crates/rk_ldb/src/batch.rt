//! The lines of a write batch.
ghost use Rattle.std.specs.Prelude.{map};
ghost use Rattle.rk_bytes.specs.Model.Lines.{batch_lines, part_line};
ghost use Rattle.rk_ldb.specs.Stops.{TookUpTo, OutputStops};

use crate::lines::write_line;
use crate::stop::Stop;
use rk_batch::BatchView;
use rk_disk::Sink;
use rk_text::Line;

/// Writes the lines of a record's payload, which is a write batch or none.
pub(crate) fn write_batch<S: Sink>(
    payload: &[u8],
    hex: bool,
    line: &mut Line,
    out: &mut S,
) -> Result<(), Stop>
    ensures lines { TookUpTo (S.taken out.old) (S.taken out.new) (batch_lines hex payload.now) result }
    ensures counts { OutputStops (S.faults out.old) (S.faults out.new) result }
{
    match BatchView::read(payload) {
        Ok(mut view) => {
            line.set_batch(&view)?;
            write_line(line.as_slice(), out)?;
            write_parts(&mut view, hex, line, out)
        }
        Err(fault) => {
            line.set_bad_batch(fault)?;
            write_line(line.as_slice(), out)
        }
    }
}

/// Writes a line for each part of a batch that is left, from the view of the batch.
fn write_parts<S: Sink>(
    view: &mut BatchView<'_>,
    hex: bool,
    line: &mut Line,
    out: &mut S,
) -> Result<(), Stop>
    ensures lines { TookUpTo (S.taken out.old) (S.taken out.new) (map (part_line hex) view.old.left) result }
    ensures counts { OutputStops (S.faults out.old) (S.faults out.new) result }
{
    while let Some(part) = view.next_record() {
        line.set_part(&part, hex)?;
        write_line(line.as_slice(), out)?;
    }
    Ok(())
}

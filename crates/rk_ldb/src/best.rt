//! The command `check` by best efforts.
ghost use Rattle.std.specs.Prelude.{◌≡◌, IfOk, IfSome};
ghost use Rattle.rk_bytes.specs.declared.model.command.How.TheVariants as how;
ghost use Rattle.rk_bytes.specs.Model.DiskImages.{IsLeft, contents_told};
ghost use Rattle.rk_bytes.specs.Model.Output.{check_output};
ghost use Rattle.rk_open.specs.Best.{best_of};
ghost use Rattle.rk_ldb.specs.Answers.{IsCommandAnswer};
ghost use Rattle.rk_ldb.specs.Stops.{TookUpTo, DiskCounts, SinkCounts, OutputStops};
ghost use Rattle.rk_ldb.specs.Views.{best_lines, best_rest};

use crate::check::write_counts;
use crate::lines::write_line;
use crate::refusal::{refusal_of, refuse};
use crate::shown::write_shown;
use crate::stop::Stop;
use rk_bytes::model::Status;
use rk_disk::{Disk, Sink};
use rk_open::{Best, open_best};
use rk_text::Line;
use std::alloc::Global;

/// Writes how far the database is opened by best efforts, and the counts of that, or says why it isn't.
pub(crate) fn check_best<D: Disk, S: Sink>(
    alloc: Global,
    disk: &mut D,
    out: &mut S,
) -> Result<Status, Stop>
    ensures lines { IfSome (contents_told (D.told disk.old)) (λ d. TookUpTo (S.taken out.old) (S.taken out.new) (check_output how.Best d).lines result) }
    ensures status { IfSome (contents_told (D.told disk.old)) (λ d. IfOk result (λ status. status ≡ (check_output how.Best d).status)) }
    ensures answers { IfOk result IsCommandAnswer }
    ensures disk_count { DiskCounts (D.faults disk.old) (D.faults disk.new) result }
    ensures output_count { SinkCounts (S.faults out.old) (S.faults out.new) result }
    ensures left { IsLeft (D.told disk.old) (D.told disk.new) }
{
    match open_best(alloc, disk) {
        Ok(best) => write_best(alloc, &best, out),
        Err(why) => refuse(alloc, refusal_of(why)?, out),
    }
}

/// Writes the manifest's line, the points of the families and the counts.
fn write_best<S: Sink>(alloc: Global, best: &Best, out: &mut S) -> Result<Status, Stop>
    ensures lines { TookUpTo (S.taken out.old) (S.taken out.new) (best_lines (best_of best.now)) result }
    ensures status { IfOk result (λ status. status ≡ Status.Done) }
    ensures counts { OutputStops (S.faults out.old) (S.faults out.new) result }
{
    let mut line = Line::new(alloc);
    line.set_manifest(best.manifest, best.units)?;
    write_line(line.as_slice(), out)?;
    write_points(alloc, best, &mut line, out)
}

/// Writes the points of the families, and the counts.
fn write_points<S: Sink>(
    alloc: Global,
    best: &Best,
    line: &mut Line,
    out: &mut S,
) -> Result<Status, Stop>
    ensures lines { TookUpTo (S.taken out.old) (S.taken out.new) (best_rest (best_of best.now)) result }
    ensures status { IfOk result (λ status. status ≡ Status.Done) }
    ensures counts { OutputStops (S.faults out.old) (S.faults out.new) result }
{
    write_shown(best.points.as_slice(), false, line, out)?;
    write_counts(alloc, &best.state, out)
}

//! The command `check`.
ghost use Rattle.std.specs.Prelude.{◌≡◌, ◌∷◌, [], ◌-◌, ◌^◌, IfOk, IfSome, map, min, sum};
ghost use Rattle.rk_bytes.specs.declared.model.command.How.TheVariants.{Normal};
ghost use Rattle.rk_bytes.specs.Model.DiskImages.{IsLeft, contents_told};
ghost use Rattle.rk_bytes.specs.Model.Output.{check_output, counts_line};
ghost use Rattle.rk_ldb.specs.Answers.{IsCommandAnswer};
ghost use Rattle.rk_ldb.specs.Stops.{TookUpTo, DiskCounts, SinkCounts, OutputStops};

use crate::best::check_best;
use crate::lines::write_line;
use crate::refusal::{refusal_of, refuse};
use crate::stop::Stop;
use rk_bytes::model::{FamilyLine, How, Mode, Status};
use rk_disk::{Disk, Sink};
use rk_open::open_full;
use rk_text::Line;
use rk_view::State;
use std::alloc::Global;

/// Writes the counts of what is opened, and by best efforts how far, or says why nothing is.
pub(crate) fn check<D: Disk, S: Sink>(
    alloc: Global,
    how: How,
    disk: &mut D,
    out: &mut S,
) -> Result<Status, Stop>
    ensures lines { IfSome (contents_told (D.told disk.old)) (λ d. TookUpTo (S.taken out.old) (S.taken out.new) (check_output how d).lines result) }
    ensures status { IfSome (contents_told (D.told disk.old)) (λ d. IfOk result (λ status. status ≡ (check_output how d).status)) }
    ensures answers { IfOk result IsCommandAnswer }
    ensures disk_count { DiskCounts (D.faults disk.old) (D.faults disk.new) result }
    ensures output_count { SinkCounts (S.faults out.old) (S.faults out.new) result }
    ensures left { IsLeft (D.told disk.old) (D.told disk.new) }
{
    match how {
        How::Normal(mode) => check_in(alloc, mode, disk, out),
        How::Best => check_best(alloc, disk, out),
    }
}

/// Writes the counts of what is opened in a mode, or says why nothing is.
fn check_in<D: Disk, S: Sink>(
    alloc: Global,
    mode: Mode,
    disk: &mut D,
    out: &mut S,
) -> Result<Status, Stop>
    ensures lines { IfSome (contents_told (D.told disk.old)) (λ d. TookUpTo (S.taken out.old) (S.taken out.new) (check_output (Normal mode) d).lines result) }
    ensures status { IfSome (contents_told (D.told disk.old)) (λ d. IfOk result (λ status. status ≡ (check_output (Normal mode) d).status)) }
    ensures answers { IfOk result IsCommandAnswer }
    ensures disk_count { DiskCounts (D.faults disk.old) (D.faults disk.new) result }
    ensures output_count { SinkCounts (S.faults out.old) (S.faults out.new) result }
    ensures left { IsLeft (D.told disk.old) (D.told disk.new) }
{
    match open_full(alloc, disk, mode) {
        Ok(opened) => write_counts(alloc, &opened.state, out),
        Err(why) => refuse(alloc, refusal_of(why)?, out),
    }
}

/// Writes the counts of a state.
pub(crate) fn write_counts<S: Sink>(
    alloc: Global,
    state: &State,
    out: &mut S,
) -> Result<Status, Stop>
    ensures lines { TookUpTo (S.taken out.old) (S.taken out.new) (counts_line state.now.state ∷ []) result }
    ensures status { IfOk result (λ status. status ≡ Status.Done) }
    ensures counts { OutputStops (S.faults out.old) (S.faults out.new) result }
{
    let mut line = Line::new(alloc);
    let families = state.families();
    line.set_counts(families.len() as u64, file_count(families), state.count())?;
    write_line(line.as_slice(), out)?;
    Ok(Status::Done)
}

/// How many tables the families have, at most 2^64 - 1.
fn file_count(families: &[FamilyLine]) -> u64
    ensures { result ≡ min (sum (map (λ line. line.files) families.now)) (2 ^ 64 - 1) }
{
    let mut count: u64 = 0;
    for line in families {
        count = count.saturating_add(line.files);
    }
    count
}

//! The command `scan`.
ghost use Rattle.std.specs.Prelude.{◌≡◌, IfOk, IfSome, map};
ghost use Rattle.std.specs.Option.{option_copied, option_map};
ghost use Rattle.rk_bytes.specs.Model.DiskImages.{IsLeft, contents_told};
ghost use Rattle.rk_bytes.specs.Model.Grammar.{key_bytes};
ghost use Rattle.rk_bytes.specs.Model.KeyView.{rows};
ghost use Rattle.rk_bytes.specs.Model.Lines.{row_line};
ghost use Rattle.rk_bytes.specs.Model.Output.{scan_output, state_of};
ghost use Rattle.rk_view.specs.Shown.{row_shown};
ghost use Rattle.rk_ldb.specs.Answers.{IsCommandAnswer};
ghost use Rattle.rk_ldb.specs.Commands.{told_key};
ghost use Rattle.rk_ldb.specs.Stops.{TookUpTo, TookLine, DiskCounts, SinkCounts, OutputStops};
ghost use Rattle.rk_ldb.specs.Views.{family_rows};

use crate::keys::{KeyWord, bound_bytes, family_name, lent};
use crate::lines::write_line;
use crate::opening::open_state;
use crate::refusal::{refusal_of, refuse, refuse_family};
use crate::stop::Stop;
use rk_bytes::model::{How, Status};
use rk_disk::{Disk, Sink};
use rk_text::Line;
use rk_view::{Row, State, ViewIter, view_iter};
use std::alloc::Global;

/// Writes a line for each row of a family, the default one where none is named, from one key on, up to
/// another, or says why there is none.
pub(crate) fn scan<D: Disk, S: Sink>(
    alloc: Global,
    family: Option<&[u8]>,
    how: How,
    from: Option<KeyWord<'_>>,
    to: Option<KeyWord<'_>>,
    hex: bool,
    disk: &mut D,
    out: &mut S,
) -> Result<Status, Stop>
    ensures lines { IfSome (contents_told (D.told disk.old)) (λ d. TookUpTo (S.taken out.old) (S.taken out.new) (scan_output (option_copied family.entry) (option_map told_key from.entry) (option_map told_key to.entry) hex (state_of how d)).lines result) }
    ensures status { IfSome (contents_told (D.told disk.old)) (λ d. IfOk result (λ status. status ≡ (scan_output (option_copied family.entry) (option_map told_key from.entry) (option_map told_key to.entry) hex (state_of how d)).status)) }
    ensures answers { IfOk result IsCommandAnswer }
    ensures disk_count { DiskCounts (D.faults disk.old) (D.faults disk.new) result }
    ensures output_count { SinkCounts (S.faults out.old) (S.faults out.new) result }
    ensures left { IsLeft (D.told disk.old) (D.told disk.new) }
{
    match open_state(alloc, disk, how) {
        Ok(state) => scan_family(alloc, &state, family, from, to, hex, out),
        Err(why) => refuse(alloc, refusal_of(why)?, out),
    }
}

/// Writes the rows of the family with this name, if it is live.
fn scan_family<S: Sink>(
    alloc: Global,
    state: &State,
    family: Option<&[u8]>,
    from: Option<KeyWord<'_>>,
    to: Option<KeyWord<'_>>,
    hex: bool,
    out: &mut S,
) -> Result<Status, Stop>
    ensures lines { TookUpTo (S.taken out.old) (S.taken out.new) (family_rows (option_copied family.entry) (option_map told_key from.entry) (option_map told_key to.entry) hex state.now.state).lines result }
    ensures status { IfOk result (λ status. status ≡ (family_rows (option_copied family.entry) (option_map told_key from.entry) (option_map told_key to.entry) hex state.now.state).status) }
    ensures answers { IfOk result IsCommandAnswer }
    ensures counts { OutputStops (S.faults out.old) (S.faults out.new) result }
{
    let name = family_name(family);
    match state.family_named(name) {
        Some(id) => scan_keys(alloc, state, id, from, to, hex, out),
        None => refuse_family(alloc, name, out),
    }
}

/// Writes the rows of a family from one key on, up to another.
fn scan_keys<S: Sink>(
    alloc: Global,
    state: &State,
    id: u32,
    from: Option<KeyWord<'_>>,
    to: Option<KeyWord<'_>>,
    hex: bool,
    out: &mut S,
) -> Result<Status, Stop>
    ensures lines { TookUpTo (S.taken out.old) (S.taken out.new) (map (row_line hex) (rows state.now.state id (option_map key_bytes (option_map told_key from.entry)) (option_map key_bytes (option_map told_key to.entry)))) result }
    ensures status { IfOk result (λ status. status ≡ Status.Done) }
    ensures counts { OutputStops (S.faults out.old) (S.faults out.new) result }
{
    let from = bound_bytes(alloc, from)?;
    let to = bound_bytes(alloc, to)?;
    write_between(alloc, state, id, lent(&from), lent(&to), hex, out)
}

/// Writes the rows of a family from these bytes on, up to others.
fn write_between<S: Sink>(
    alloc: Global,
    state: &State,
    id: u32,
    from: Option<&[u8]>,
    to: Option<&[u8]>,
    hex: bool,
    out: &mut S,
) -> Result<Status, Stop>
    ensures lines { TookUpTo (S.taken out.old) (S.taken out.new) (map (row_line hex) (rows state.now.state id (option_copied from.entry) (option_copied to.entry))) result }
    ensures status { IfOk result (λ status. status ≡ Status.Done) }
    ensures counts { OutputStops (S.faults out.old) (S.faults out.new) result }
{
    let mut rows = view_iter(alloc, state, id, from, to);
    let mut line = Line::new(alloc);
    write_rows(&mut rows, hex, &mut line, out)?;
    Ok(Status::Done)
}

/// Writes a line for each row that is left.
fn write_rows<S: Sink>(
    rows: &mut ViewIter<'_>,
    hex: bool,
    line: &mut Line,
    out: &mut S,
) -> Result<(), Stop>
    ensures lines { TookUpTo (S.taken out.old) (S.taken out.new) (map (row_line hex) rows.old) result }
    ensures counts { OutputStops (S.faults out.old) (S.faults out.new) result }
{
    while let Some(row) = rows.next_row()? {
        write_row(&row, hex, line, out)?;
    }
    Ok(())
}

/// Writes the line of a row.
fn write_row<S: Sink>(row: &Row<'_>, hex: bool, line: &mut Line, out: &mut S) -> Result<(), Stop>
    ensures line { TookLine (S.taken out.old) (S.taken out.new) (row_line hex (row_shown row.now)) result }
    ensures counts { OutputStops (S.faults out.old) (S.faults out.new) result }
{
    line.set_row(row, hex)?;
    write_line(line.as_slice(), out)
}

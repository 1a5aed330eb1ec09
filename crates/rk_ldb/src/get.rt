//! The command `get`.
ghost use Rattle.std.specs.Prelude.{◌≡◌, ◌∷◌, [], IfOk, IfSome};
ghost use Rattle.std.specs.Option.{option_copied};
ghost use Rattle.rk_bytes.specs.Model.DiskImages.{IsLeft, contents_told};
ghost use Rattle.rk_bytes.specs.Model.Grammar.{key_bytes};
ghost use Rattle.rk_bytes.specs.Model.KeyView.{answer};
ghost use Rattle.rk_bytes.specs.Model.Lines.{answer_line};
ghost use Rattle.rk_bytes.specs.Model.Output.{get_output, state_of, answer_status};
ghost use Rattle.rk_view.specs.Shown.{answer_of};
ghost use Rattle.rk_ldb.specs.Answers.{IsGetAnswer};
ghost use Rattle.rk_ldb.specs.Commands.{told_key};
ghost use Rattle.rk_ldb.specs.Stops.{TookUpTo, DiskCounts, SinkCounts, OutputStops};
ghost use Rattle.rk_ldb.specs.Views.{family_answer, answer_output};

use crate::keys::{KeyWord, family_name, key_bytes};
use crate::lines::write_line;
use crate::opening::open_state;
use crate::refusal::{refusal_of, refuse, refuse_family};
use crate::stop::Stop;
use rk_bytes::model::{How, Status};
use rk_disk::{Disk, Sink};
use rk_text::Line;
use rk_view::{Answer, State, view_get};
use std::alloc::Global;

/// Writes what is shown of a key of a family, the default one where none is named, or says why nothing is.
pub(crate) fn get<D: Disk, S: Sink>(
    alloc: Global,
    key: KeyWord<'_>,
    family: Option<&[u8]>,
    how: How,
    hex: bool,
    disk: &mut D,
    out: &mut S,
) -> Result<Status, Stop>
    ensures lines { IfSome (contents_told (D.told disk.old)) (λ d. TookUpTo (S.taken out.old) (S.taken out.new) (get_output (told_key key.entry) (option_copied family.entry) hex (state_of how d)).lines result) }
    ensures status { IfSome (contents_told (D.told disk.old)) (λ d. IfOk result (λ status. status ≡ (get_output (told_key key.entry) (option_copied family.entry) hex (state_of how d)).status)) }
    ensures answers { IfOk result IsGetAnswer }
    ensures disk_count { DiskCounts (D.faults disk.old) (D.faults disk.new) result }
    ensures output_count { SinkCounts (S.faults out.old) (S.faults out.new) result }
    ensures left { IsLeft (D.told disk.old) (D.told disk.new) }
{
    match open_state(alloc, disk, how) {
        Ok(state) => get_of_family(alloc, &state, key, family, hex, out),
        Err(why) => refuse(alloc, refusal_of(why)?, out),
    }
}

/// Writes what is shown of a key of the family with this name, if it is live.
fn get_of_family<S: Sink>(
    alloc: Global,
    state: &State,
    key: KeyWord<'_>,
    family: Option<&[u8]>,
    hex: bool,
    out: &mut S,
) -> Result<Status, Stop>
    ensures lines { TookUpTo (S.taken out.old) (S.taken out.new) (family_answer (told_key key.entry) (option_copied family.entry) hex state.now.state).lines result }
    ensures status { IfOk result (λ status. status ≡ (family_answer (told_key key.entry) (option_copied family.entry) hex state.now.state).status) }
    ensures answers { IfOk result IsGetAnswer }
    ensures counts { OutputStops (S.faults out.old) (S.faults out.new) result }
{
    let name = family_name(family);
    match state.family_named(name) {
        Some(id) => get_key(alloc, state, id, key, hex, out),
        None => refuse_family(alloc, name, out),
    }
}

/// Writes what is shown of the key that is spelled so.
fn get_key<S: Sink>(
    alloc: Global,
    state: &State,
    id: u32,
    key: KeyWord<'_>,
    hex: bool,
    out: &mut S,
) -> Result<Status, Stop>
    ensures lines { TookUpTo (S.taken out.old) (S.taken out.new) (answer_output hex (answer state.now.state id (key_bytes (told_key key.entry)))).lines result }
    ensures status { IfOk result (λ status. status ≡ (answer_output hex (answer state.now.state id (key_bytes (told_key key.entry)))).status) }
    ensures answers { IfOk result IsGetAnswer }
    ensures counts { OutputStops (S.faults out.old) (S.faults out.new) result }
{
    let key = key_bytes(alloc, key)?;
    write_shown_of(alloc, state, id, key.as_slice(), hex, out)
}

/// Writes what is shown of the key with these bytes.
fn write_shown_of<S: Sink>(
    alloc: Global,
    state: &State,
    id: u32,
    key: &[u8],
    hex: bool,
    out: &mut S,
) -> Result<Status, Stop>
    ensures lines { TookUpTo (S.taken out.old) (S.taken out.new) (answer_output hex (answer state.now.state id key.now)).lines result }
    ensures status { IfOk result (λ status. status ≡ (answer_output hex (answer state.now.state id key.now)).status) }
    ensures answers { IfOk result IsGetAnswer }
    ensures counts { OutputStops (S.faults out.old) (S.faults out.new) result }
{
    let answer = view_get(alloc, state, id, key)?;
    write_answer(alloc, &answer, hex, out)
}

/// Writes the line of an answer.
fn write_answer<S: Sink>(
    alloc: Global,
    answer: &Answer<'_>,
    hex: bool,
    out: &mut S,
) -> Result<Status, Stop>
    ensures lines { TookUpTo (S.taken out.old) (S.taken out.new) (answer_output hex (answer_of answer.now)).lines result }
    ensures status { IfOk result (λ status. status ≡ (answer_output hex (answer_of answer.now)).status) }
    ensures answers { IfOk result IsGetAnswer }
    ensures counts { OutputStops (S.faults out.old) (S.faults out.new) result }
{
    let mut line = Line::new(alloc);
    line.set_answer(answer, hex)?;
    write_line(line.as_slice(), out)?;
    Ok(status_of(answer))
}

/// The status of an answer: `NotFound` where nothing is shown.
fn status_of(answer: &Answer<'_>) -> Status
    ensures status { result ≡ answer_status (answer_of answer.now) }
    ensures answers { IsGetAnswer result }
{
    match answer {
        Answer::Absent => Status::NotFound,
        _ => Status::Done,
    }
}

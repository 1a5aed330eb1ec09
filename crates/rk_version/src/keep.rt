//! What is kept of an edit, read before the edit is applied.
ghost use Rattle.std.specs.Prelude.{◌≡◌, filter_map, find, IfOk};
ghost use Rattle.rk_bytes.specs.Model.Manifest.{has_id};
ghost use Rattle.rk_version.specs.Bounds.{HasFilesInOrder};
ghost use Rattle.rk_version.specs.Keeping.{touched_in, tracked_in, KeepsFiles, KeepsFamily, Keeps};

use crate::draft::Draft;
use crate::kept::{KeptEdit, KeptFamily, KeptFiles};
use crate::stated::Stated;
use crate::{FamilyState, files, logs};
use rk_bytes::{Memory, Seq};
use rk_edit::{EditView, Field};
use std::alloc::Global;

/// What the edit will replace in the version.
pub(crate) fn keep_edit(
    alloc: Global,
    draft: &Draft,
    view: &EditView<'_>,
) -> Result<KeptEdit, Memory>
    ensures { IfOk result (λ kept. Keeps kept draft.now view.now) }
{
    let stated = Stated::of(view.copy());
    let id = stated.family.unwrap_or(0);
    let family = keep_family(alloc, draft, id, stated.drops_family, view)?;
    let tracks = tracked_numbers(alloc, view.copy())?;
    let wals = draft.keep_logs(view, tracks.as_slice())?;
    let version = draft.version();
    Ok(KeptEdit {
        id,
        family,
        log_seen: version.log_seen,
        next_file: version.next_file,
        last_sequence: version.last_sequence,
        least_log: version.least_log,
        greatest_family: version.greatest_family,
        tracks,
        wals,
    })
}

/// What the edit will replace of its family.
fn keep_family(
    alloc: Global,
    draft: &Draft,
    id: u32,
    drops: bool,
    view: &EditView<'_>,
) -> Result<KeptFamily, Memory>
    ensures { IfOk result (λ kept. KeepsFamily kept (find (has_id id) draft.now.families) drops view.now) }
{
    if drops {
        match draft.copy_family(id)? {
            Some(family) => Ok(KeptFamily::Dropped(family)),
            None => Ok(KeptFamily::Missing),
        }
    } else {
        match draft.family(id) {
            Some(live) => Ok(KeptFamily::Changed(keep_files(alloc, live, view)?)),
            None => Ok(KeptFamily::Missing),
        }
    }
}

/// What the edit will replace in the family, which stays.
fn keep_files(alloc: Global, live: &FamilyState, view: &EditView<'_>) -> Result<KeptFiles, Memory>
    requires { HasFilesInOrder live.now }
    ensures { IfOk result (λ kept. KeepsFiles kept live.now view.now) }
{
    let numbers = touched_numbers(alloc, view.copy())?;
    let files = files::copy_found(alloc, live.files.as_slice(), numbers.as_slice())?;
    Ok(KeptFiles {
        log: live.log,
        numbers,
        files,
    })
}

/// The numbers of the files that the edit deletes or adds.
fn touched_numbers(alloc: Global, mut view: EditView<'_>) -> Result<Seq<u64>, Memory>
    ensures { IfOk result (λ numbers. numbers ≡ filter_map touched_in view.entry) }
{
    let mut numbers = Seq::new(alloc);
    while let Some(field) = view.next_field() {
        match field {
            Field::DeleteFile { number, .. } => numbers.push(number)?,
            Field::AddFile(file) => numbers.push(file.number)?,
            _ => {}
        }
    }
    Ok(numbers)
}

/// The numbers of the logs that the edit tracks.
fn tracked_numbers(alloc: Global, mut view: EditView<'_>) -> Result<Seq<u64>, Memory>
    ensures { IfOk result (λ logs. logs ≡ filter_map tracked_in view.entry) }
{
    let mut logs = Seq::new(alloc);
    while let Some(field) = view.next_field() {
        if let Field::WalAdd { log, .. } = field {
            logs.push(log)?;
        }
    }
    Ok(logs)
}

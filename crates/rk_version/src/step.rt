//! The steps of an edit: its comparator is tested, then its family, then its files, and its numbers count.
ghost use Rattle.std.specs.Prelude.{◌≡◌, ◌≤◌, List, length, option_map, filter_map, Ok, IfOk};
ghost use Rattle.rk_bytes.specs.declared.model.manifest.Version.{Version};
ghost use Rattle.rk_bytes.specs.Model.VersionEdit.{Field as StatedField, deleted_in, added_in};
ghost use Rattle.rk_bytes.specs.Model.Manifest.{family_step, delete_step, add_step, file_meta, steps_in_order, file_steps, has_other_comparator, edit_step};
ghost use Rattle.rk_edit.specs.Fields.{new_file};
ghost use Rattle.rk_version.specs.Answers.{Gives};
ghost use Rattle.rk_version.specs.Stated.{Tells};
ghost use Rattle.rk_version.specs.Steps.{known_with};

use crate::draft::Draft;
use crate::stated::Stated;
use crate::{ApplyFault, FileMeta};
use rk_bytes::{Bytes, Memory};
use rk_edit::{AddFile, EditView, Field};
use std::alloc::Global;

/// The name of the one comparator of user keys that is supported.
const BYTEWISE: &[u8] = b"leveldb.BytewiseComparator";

/// The version after an edit, or why it isn't applied.
#[tactic(auto, unfolding(rk_bytes::specs::Model::Manifest::edit_step))]
pub(crate) fn apply_edit(
    alloc: Global,
    draft: Draft,
    view: EditView<'_>,
) -> Result<Draft, ApplyFault>
    ensures { Gives (edit_step view.entry draft) result }
{
    let stated = Stated::of(view.copy());
    if states_other_comparator(&stated) {
        return Err(ApplyFault::UnsupportedComparator);
    }
    let known = apply_family(draft, &stated)?;
    let filed = if stated.drops_family {
        known
    } else {
        apply_files(alloc, known, &stated, &view)?
    };
    filed.with_numbers(&stated, view)
}

/// Whether the comparator that is stated isn't the bytewise one.
fn states_other_comparator(stated: &Stated<'_>) -> bool
    ensures { (edit : List StatedField) → Tells stated.now edit → result ≡ has_other_comparator edit }
{
    match stated.comparator {
        Some(name) => name != BYTEWISE,
        None => false,
    }
}

/// The version after what the edit says of its family.
fn apply_family(draft: Draft, stated: &Stated<'_>) -> Result<Draft, ApplyFault>
    ensures { (edit : List StatedField) → Tells stated.now edit → Gives (family_step edit draft) result }
{
    let id = stated.family.unwrap_or(0);
    let known = find_family(draft, id, stated.family_add)?;
    if stated.drops_family {
        Ok(known.without_family(id))
    } else {
        Ok(known)
    }
}

/// The version with the family that an edit speaks of, which is added where it has a name.
fn find_family(draft: Draft, id: u32, family_add: Option<&[u8]>) -> Result<Draft, ApplyFault>
    ensures { Gives (known_with id (option_map (λ name. name.now) family_add.entry) draft) result }
{
    match family_add {
        Some(name) => {
            if draft.has_id(id) || draft.has_name(name) {
                return Err(ApplyFault::FamilyExists(id));
            }
            or_memory(draft.with_family(id, name))
        }
        None => {
            if !draft.has_id(id) {
                return Err(ApplyFault::UnknownFamily(id));
            }
            Ok(draft)
        }
    }
}

/// The version after the files of an edit: those that it deletes go, and then those that it adds come.
fn apply_files(
    alloc: Global,
    draft: Draft,
    stated: &Stated<'_>,
    view: &EditView<'_>,
) -> Result<Draft, ApplyFault>
    requires { Tells stated.now view.now }
    ensures { Gives (file_steps view.now draft) result }
{
    let id = stated.family.unwrap_or(0);
    let fewer = delete_files(draft, id, view.copy())?;
    add_files(alloc, fewer, id, view.copy())
}

/// The version without the files that an edit deletes.
fn delete_files(draft: Draft, id: u32, mut view: EditView<'_>) -> Result<Draft, ApplyFault>
    ensures { Gives (steps_in_order (delete_step id) (filter_map deleted_in view.entry) draft) result }
{
    let mut draft = draft;
    while let Some(field) = view.next_field() {
        if let Field::DeleteFile { level, number } = field {
            draft = delete_file(draft, id, level, number)?;
        }
    }
    Ok(draft)
}

/// The version without one of its files, which has to be in the family at that level.
fn delete_file(draft: Draft, id: u32, level: u32, number: u64) -> Result<Draft, ApplyFault>
    ensures { Gives (delete_step id (level, number) draft) result }
{
    if !draft.has_file_at(id, level, number) {
        return Err(ApplyFault::DeleteAbsent(number));
    }
    Ok(draft.without_file(id, number))
}

/// The version with the files that an edit adds.
fn add_files(
    alloc: Global,
    draft: Draft,
    id: u32,
    mut view: EditView<'_>,
) -> Result<Draft, ApplyFault>
    ensures { Gives (steps_in_order (add_step id) (filter_map added_in view.entry) draft) result }
{
    let mut draft = draft;
    while let Some(field) = view.next_field() {
        if let Field::AddFile(file) = field {
            draft = add_file(alloc, draft, id, file)?;
        }
    }
    Ok(draft)
}

/// The version with one more file, whose number has to be free in all families.
fn add_file(alloc: Global, draft: Draft, id: u32, file: AddFile<'_>) -> Result<Draft, ApplyFault>
    requires smallest { 8 ≤ length file.smallest.now }
    requires largest { 8 ≤ length file.largest.now }
    ensures { Gives (add_step id (new_file file.entry) draft) result }
{
    if draft.has_file(file.number) {
        return Err(ApplyFault::AddPresent(file.number));
    }
    match meta_of(alloc, file) {
        Ok(meta) => or_memory(draft.with_file(id, meta)),
        Err(Memory) => Err(ApplyFault::Memory),
    }
}

/// What a version lists of an added file. `Memory` comes only where memory runs out.
pub fn meta_of(alloc: Global, file: AddFile<'_>) -> Result<FileMeta, Memory>
    ensures { IfOk result (λ meta. meta ≡ file_meta (new_file file.entry)) }
{
    Ok(FileMeta {
        number: file.number,
        level: file.level,
        size: file.size,
        smallest: Bytes::copy_of(alloc, file.smallest)?,
        largest: Bytes::copy_of(alloc, file.largest)?,
        seqs: file.seqs,
    })
}

/// The version, or want of memory as a refusal.
fn or_memory(answer: Result<Draft, Memory>) -> Result<Draft, ApplyFault>
    ensures { (next : Version) → IfOk answer (λ draft. draft ≡ next) → Gives (Ok next) result }
{
    match answer {
        Ok(draft) => Ok(draft),
        Err(Memory) => Err(ApplyFault::Memory),
    }
}

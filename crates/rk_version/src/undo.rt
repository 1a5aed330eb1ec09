ghost use Rattle.std.specs.Prelude.{◌≡◌, ◌∷◌, ◌++◌, [], IsOk, IfOk, IfErr};
ghost use Rattle.std.specs.List.{All};
ghost use Rattle.rk_log.specs.Items.{piece_bytes};
ghost use Rattle.rk_bytes.specs.Model.VersionEdit.{edit_fields};
ghost use Rattle.rk_bytes.specs.Model.Manifest.{steps_in_order, edit_step, unit_step};
ghost use Rattle.rk_version.specs.Undone.{before_edit, before_edits};
ghost use Rattle.rk_version.specs.Units.{edits_of, meaning};
ghost use Rattle.rk_version.specs.Undoing.{Leads, Steps};

use crate::ApplyFault;
use crate::draft::Draft;
use crate::keep::keep_edit;
use crate::kept::{KeptEdit, KeptFamily};
use crate::step::apply_edit;
use crate::unit::Unit;
use rk_bytes::{Memory, Seq};
use rk_edit::EditView;
use rk_log::Piece;
use std::alloc::Global;

/// What a unit replaced in the version that it was applied to. It leads from the version after the unit back to
/// that one, and its size is that of what the unit changed.
#[derive(Debug, Drop)]
pub struct Undo {
    /// Of each edit, in their order.
    edits: Seq<KeptEdit>,
}

/// Why a unit isn't taken back.
#[derive(Debug, Drop)]
pub enum UndoErr {
    /// Want of memory. What was to be taken back is handed back.
    Memory(Undo),
}

/// The version after a unit, with what leads back, or why it isn't applied.
pub(crate) fn apply_unit_undo(
    alloc: Global,
    draft: Draft,
    unit: &Unit<'_>,
) -> Result<(Draft, Undo), ApplyFault>
    requires { All (λ piece. IsOk (edit_fields (piece_bytes piece))) unit.now.pieces }
    ensures { Steps (unit_step (meaning unit.now) draft) result (λ done. before_edits done.1.edits done.0 ≡ draft) }
{
    let (next, edits) = apply_edits_undo(alloc, draft, unit.pieces.as_slice())?;
    next.check_overlap()?;
    Ok((next, Undo { edits }))
}

/// The version after edits, with what leads back.
fn apply_edits_undo(
    alloc: Global,
    draft: Draft,
    pieces: &[Piece<'_>],
) -> Result<(Draft, Seq<KeptEdit>), ApplyFault>
    requires { All (λ piece. IsOk (edit_fields (piece_bytes piece))) pieces.now }
    ensures { Steps (steps_in_order edit_step (edits_of pieces.now) draft) result (λ done. before_edits done.1 done.0 ≡ draft) }
{
    let mut draft = draft;
    let mut edits = Seq::new(alloc);
    for piece in pieces {
        match EditView::read(piece.as_slice()) {
            Ok(view) => {
                let (next, kept) = apply_and_keep(alloc, draft, view)?;
                draft = next;
                keep_one(&mut edits, kept)?;
            }
            Err(_) => unreachable!(),
        }
    }
    Ok((draft, edits))
}

/// The version after an edit, with what leads back.
fn apply_and_keep(
    alloc: Global,
    draft: Draft,
    view: EditView<'_>,
) -> Result<(Draft, KeptEdit), ApplyFault>
    ensures { Steps (edit_step view.entry draft) result (λ done. before_edit done.1 done.0 ≡ draft) }
{
    match keep_edit(alloc, &draft, &view) {
        Ok(kept) => {
            draft.show_order();
            let next = apply_edit(alloc, draft, view)?;
            next.show_order();
            Ok((next, kept))
        }
        Err(Memory) => Err(ApplyFault::Memory),
    }
}

/// Keeps what leads back over one more edit.
fn keep_one(edits: &mut Seq<KeptEdit>, kept: KeptEdit) -> Result<(), ApplyFault>
    ensures kept { IfOk result (λ done. edits.new ≡ edits.old ++ kept ∷ []) }
    ensures memory { IfErr result (λ why. why ≡ ApplyFault.Memory) }
{
    match edits.push(kept) {
        Ok(()) => Ok(()),
        Err(Memory) => Err(ApplyFault::Memory),
    }
}

/// The version to which the undo leads.
pub(crate) fn undo_unit(draft: Draft, undo: &Undo) -> Result<Draft, Memory>
    ensures { IfOk result (λ earlier. Leads undo.now draft earlier) }
{
    undo_edits(draft, undo.edits.as_slice())
}

/// The version before edits of which this is kept.
fn undo_edits(draft: Draft, edits: &[KeptEdit]) -> Result<Draft, Memory>
    ensures { IfOk result (λ earlier. earlier ≡ before_edits edits.now draft) }
{
    let mut draft = draft;
    let mut rest = edits;
    while let Some((last, front)) = rest.split_last() {
        draft = undo_edit(draft, last)?;
        rest = front;
    }
    Ok(draft)
}

/// The version before an edit of which this is kept.
fn undo_edit(draft: Draft, kept: &KeptEdit) -> Result<Draft, Memory>
    ensures { IfOk result (λ earlier. earlier ≡ before_edit kept.now draft) }
{
    let draft = match &kept.family {
        KeptFamily::Missing => draft.without_family(kept.id),
        KeptFamily::Dropped(family) => draft.with_live(family)?,
        KeptFamily::Changed(files) => draft.with_family_before(kept.id, files)?,
    };
    draft.with_numbers_before(kept)
}

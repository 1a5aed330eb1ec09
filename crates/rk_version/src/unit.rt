ghost use Rattle.std.specs.Prelude.{◌≡◌, Ok, IsOk, IfOk};
ghost use Rattle.std.specs.List.{All};
ghost use Rattle.rk_log.specs.Items.{piece_bytes};
ghost use Rattle.rk_bytes.specs.Model.VersionEdit.{edit_fields};
ghost use Rattle.rk_bytes.specs.Model.Manifest.{steps_in_order, edit_step, unit_step};
ghost use Rattle.rk_version.specs.Answers.{Gives};
ghost use Rattle.rk_version.specs.Units.{edits_of, meaning};

use crate::ApplyFault;
use crate::draft::Draft;
use crate::step::apply_edit;
use rk_bytes::{Memory, Seq};
use rk_edit::EditView;
use rk_log::Piece;
use std::alloc::Global;

/// What a manifest applies at once: an edit by itself, or the edits of a group.
#[derive(Debug, Drop)]
pub struct Unit<'a> {
    /// The bytes of the edits, in their order.
    pub pieces: Seq<Piece<'a>>,
    /// They are a group.
    pub group: bool,
}

/// The version after a unit, whose files have to be apart at its end, or why it isn't applied.
pub(crate) fn apply_unit(alloc: Global, draft: Draft, unit: &Unit<'_>) -> Result<Draft, ApplyFault>
    requires { All (λ piece. IsOk (edit_fields (piece_bytes piece))) unit.now.pieces }
    ensures { Gives (unit_step (meaning unit.now) draft) result }
{
    let next = apply_edits(alloc, draft, unit.pieces.as_slice())?;
    next.check_overlap()?;
    Ok(next)
}

/// The version after a unit that is known to be applied to it, whose files need no test.
pub(crate) fn apply_known_unit(
    alloc: Global,
    draft: Draft,
    unit: &Unit<'_>,
) -> Result<Draft, Memory>
    requires reads { All (λ piece. IsOk (edit_fields (piece_bytes piece))) unit.now.pieces }
    requires known { IsOk (unit_step (meaning unit.now) draft) }
    ensures { IfOk result (λ next. unit_step (meaning unit.now) draft ≡ Ok next) }
{
    match apply_edits(alloc, draft, unit.pieces.as_slice()) {
        Ok(draft) => Ok(draft),
        Err(_) => Err(Memory),
    }
}

/// The version after edits.
fn apply_edits(alloc: Global, draft: Draft, pieces: &[Piece<'_>]) -> Result<Draft, ApplyFault>
    requires { All (λ piece. IsOk (edit_fields (piece_bytes piece))) pieces.now }
    ensures { Gives (steps_in_order edit_step (edits_of pieces.now) draft) result }
{
    let mut draft = draft;
    for piece in pieces {
        match EditView::read(piece.as_slice()) {
            Ok(view) => draft = apply_edit(alloc, draft, view)?,
            Err(_) => unreachable!(),
        }
    }
    Ok(draft)
}

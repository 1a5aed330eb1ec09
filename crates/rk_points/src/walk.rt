//! A walk over the units of a manifest that keeps what each family is, and takes the answer for each added file.
ghost use Rattle.std.specs.Prelude.{◌≡◌, ◌∷◌, [], map, filter, length, IsOk, IfOk};
ghost use Rattle.std.specs.List.{All};
ghost use Rattle.rk_log.specs.Items.{piece_bytes};
ghost use Rattle.rk_bytes.specs.Model.VersionEdit.{edit_fields};
ghost use Rattle.rk_bytes.specs.Model.Manifest.{version_at};
ghost use Rattle.rk_bytes.specs.Model.BestEfforts.{listed};
ghost use Rattle.rk_version.specs.Units.{edits_of, meaning};
ghost use Rattle.rk_points.specs.Courses.{Follows};
ghost use Rattle.rk_version.specs.Places.{Rises};
ghost use Rattle.rk_points.specs.Tallies.{default_tally, course_of, WalksEdit};
ghost use Rattle.rk_points.specs.Walks.{Reaches};

use crate::aim::Aim;
use crate::course::Course;
use crate::tallies::Tallies;
use rk_bytes::{Memory, Seq};
use rk_edit::EditView;
use rk_log::Piece;
use rk_version::Unit;
use std::alloc::Global;

/// The courses of the families that are live after all units. There is an answer for each file that the units
/// add, in their order: whether it is whole. `Memory` comes only where memory runs out.
pub(crate) fn follow(
    alloc: Global,
    units: &[Unit<'_>],
    whole: &[bool],
) -> Result<Seq<Course>, Memory>
    requires reads { All (λ unit. All (λ piece. IsOk (edit_fields (piece_bytes piece))) unit.pieces) units.now }
    requires applies { IsOk (version_at (map meaning units.now) (length units.now)) }
    requires answers { length whole.now ≡ length (listed (map meaning units.now)) }
    ensures { IfOk result (λ courses. Follows (map meaning units.now) whole.now courses) }
{
    let mut walk = Walk::new(alloc, whole)?;
    for (i, unit) in units.iter().enumerate() {
        walk.take_edits(i as u64 + 1, unit.pieces.as_slice())?;
    }
    walk.into_courses()
}

/// What is kept between two edits.
#[derive(Debug, Drop)]
pub(crate) struct Walk<'a> {
    alloc: Global,
    tallies: Tallies,
    /// The answers for the files that are still to come.
    left: &'a [bool],
}

impl<'a> Walk<'a> {
    /// Before the first unit.
    fn new(alloc: Global, whole: &'a [bool]) -> Result<Walk<'a>, Memory>
        ensures tallies { IfOk result (λ walk. walk.tallies ≡ default_tally ∷ []) }
        ensures left { IfOk result (λ walk. walk.left.now ≡ whole.now) }
    {
        Ok(Walk {
            alloc,
            tallies: Tallies::first(alloc)?,
            left: whole,
        })
    }

    /// Goes over the edits of the unit in this place.
    fn take_edits(&mut self, at: u64, pieces: &[Piece<'_>]) -> Result<(), Memory>
        requires { All (λ piece. IsOk (edit_fields (piece_bytes piece))) pieces.now }
        ensures { IfOk result (λ done. Reaches at (edits_of pieces.now) self.old [] self.new) }
    {
        for piece in pieces {
            match EditView::read(piece.as_slice()) {
                Ok(view) => self.take_edit(at, view)?,
                Err(_) => unreachable!(),
            }
        }
        Ok(())
    }

    /// Goes over an edit of the unit in this place.
    fn take_edit(&mut self, at: u64, view: EditView<'_>) -> Result<(), Memory>
        ensures { IfOk result (λ done. WalksEdit at view.entry self.old self.new) }
    {
        let aim = Aim::of(view.copy());
        let tally = self.tallies.take(aim.family.unwrap_or(0));
        let (counted, left) = tally.count(self.alloc, aim.drops, &view, self.left)?;
        self.left = left;
        self.tallies.put(counted.settle(at, !aim.drops)?)?;
        Ok(())
    }

    /// The courses of the families that are live.
    fn into_courses(self) -> Result<Seq<Course>, Memory>
        ensures courses { IfOk result (λ courses. courses ≡ map course_of (filter (λ tally. tally.now.live) self.entry.tallies)) }
        ensures order { Rises (λ tally. tally.family) self.entry.tallies }
    {
        self.tallies.into_courses()
    }
}

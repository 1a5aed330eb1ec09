ghost use Rattle.std.specs.Prelude.{◌≡◌, map, length, IsOk, IfOk};
ghost use Rattle.std.specs.List.{All};
ghost use Rattle.rk_log.specs.Items.{piece_bytes};
ghost use Rattle.rk_bytes.specs.Model.VersionEdit.{edit_fields};
ghost use Rattle.rk_bytes.specs.Model.Manifest.{version_at};
ghost use Rattle.rk_bytes.specs.Model.BestEfforts.{listed, answers_pass, best_points};
ghost use Rattle.rk_version.specs.Units.{meaning};

use crate::Point;
use crate::descent::descend;
use crate::groups::group_places;
use crate::walk::follow;
use rk_bytes::{Memory, Seq};
use rk_version::Unit;
use std::alloc::Global;

/// The best points of the families that are live after all units, in rising id: how many units count for each.
/// There is an answer for each file that the units add, in the order of `listed`: whether it is whole. `Memory`
/// comes only where memory runs out.
pub fn best_points(alloc: Global, units: &[Unit<'_>], whole: &[bool]) -> Result<Seq<Point>, Memory>
    requires reads { All (λ unit. All (λ piece. IsOk (edit_fields (piece_bytes piece))) unit.pieces) units.now }
    requires applies { IsOk (version_at (map meaning units.now) (length units.now)) }
    requires answers { length whole.now ≡ length (listed (map meaning units.now)) }
    ensures { IfOk result (λ points. points ≡ best_points (map meaning units.now) (answers_pass whole.now (map meaning units.now))) }
{
    let courses = follow(alloc, units, whole)?;
    let groups = group_places(alloc, units)?;
    descend(
        alloc,
        courses.as_slice(),
        groups.as_slice(),
        units.len() as u64,
    )
}

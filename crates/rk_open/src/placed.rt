//! The families of a manifest at their points.
ghost use Rattle.std.specs.Prelude.{◌≡◌, ◌≤◌, length, map, IsOk, IfOk};
ghost use Rattle.std.specs.List.{All, AllByRecursion};
ghost use Rattle.rk_bytes.specs.Model.Manifest.{version_at};
ghost use Rattle.rk_manifest.specs.Units.{ReadsWhole};
ghost use Rattle.rk_version.specs.Units.{meaning};
ghost use Rattle.rk_open.specs.Best.{placed, with_files};

use rk_bytes::model::{FamilyState, FileMeta, Point};
use rk_bytes::{Bytes, Memory, Seq};
use rk_points::files_at_points;
use rk_version::Unit;
use std::alloc::Global;

/// Each of the families with the files that it has at its point, which is the one in its place.
pub(crate) fn placed(
    alloc: Global,
    units: &[Unit<'_>],
    families: &[FamilyState],
    points: &[Point],
) -> Result<Seq<FamilyState>, Memory>
    requires reads { All ReadsWhole units.now }
    requires applies { IsOk (version_at (map meaning units.now) (length units.now)) }
    requires within { AllByRecursion (λ point. point.at ≤ length units.now) points.now }
    requires each { length points.now ≡ length families.now }
    ensures { IfOk result (λ each. each ≡ placed (map meaning units.now) families.now points.now) }
{
    let files = files_at_points(alloc, units, points)?;
    let mut each = Seq::new(alloc);
    let mut rest = families;
    for own in files.into_vec() {
        let Some((live, more)) = rest.split_first() else {
            unreachable!();
        };
        each.push(with_files(alloc, live, own)?)?;
        rest = more;
    }
    Ok(each)
}

/// The family with these files.
fn with_files(
    alloc: Global,
    live: &FamilyState,
    files: Seq<FileMeta>,
) -> Result<FamilyState, Memory>
    ensures { IfOk result (λ live'. live' ≡ with_files live.now files) }
{
    Ok(FamilyState {
        id: live.id,
        name: Bytes::copy_of(alloc, live.name.as_slice())?,
        log: live.log,
        files,
    })
}

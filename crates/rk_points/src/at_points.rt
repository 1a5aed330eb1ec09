//! The files of families after different numbers of units.
ghost use Rattle.std.specs.Prelude.{◌≡◌, ◌≤◌, ◌+◌, ◌==◌, [], List, length, map, Ok, IsOk, IfOk};
ghost use Rattle.std.specs.List.{All, AllByRecursion};
ghost use Rattle.rk_log.specs.Items.{piece_bytes};
ghost use Rattle.rk_bytes.specs.Model.VersionEdit.{edit_fields};
ghost use Rattle.rk_bytes.specs.Model.Manifest.{ManifestUnit, version_at};
ghost use Rattle.rk_bytes.specs.Model.BestEfforts.{files_at};
ghost use Rattle.rk_version.specs.Units.{meaning};
ghost use Rattle.rk_points.specs.Lists.{files_before};

use crate::Point;
use crate::files::files_of;
use rk_bytes::{Memory, Seq};
use rk_version::{FileMeta, Unit, Version, VersionBuilder};
use std::alloc::Global;

/// For each of the points the files that its family has there, as `files_at` gives them. The units are applied once
/// for all points, which stand in any order. `Memory` comes only where memory runs out.
pub fn files_at_points(
    alloc: Global,
    units: &[Unit<'_>],
    points: &[Point],
) -> Result<Seq<Seq<FileMeta>>, Memory>
    requires reads { All (λ unit. All (λ piece. IsOk (edit_fields (piece_bytes piece))) unit.pieces) units.now }
    requires applies { IsOk (version_at (map meaning units.now) (length units.now)) }
    requires within { AllByRecursion (λ point. point.at ≤ length units.now) points.now }
    ensures { IfOk result (λ each. each ≡ map (λ point. files_at (map meaning units.now) point.family point.at) points.now) }
{
    let mut each = no_files(alloc, points)?;
    let mut builder = VersionBuilder::new(alloc)?;
    fill_at(alloc, builder.version(), 0, points, &mut each)?;
    for (i, unit) in units.iter().enumerate() {
        match builder.apply(unit) {
            Ok(()) => {}
            Err(_) => return Err(Memory),
        }
        fill_at(alloc, builder.version(), i as u64 + 1, points, &mut each)?;
    }
    Ok(Seq::from_vec(each))
}

/// No files for each point.
fn no_files(alloc: Global, points: &[Point]) -> Result<Vec<Seq<FileMeta>>, Memory>
    ensures { IfOk result (λ each. each.items ≡ map (λ point. []) points.now) }
{
    let mut each = Vec::new(alloc);
    for _ in points {
        each.push(Seq::new(alloc))?;
    }
    Ok(each)
}

/// Puts the files of the points at so many units, after which this is the version, into their places.
fn fill_at(
    alloc: Global,
    version: &Version,
    at: u64,
    points: &[Point],
    each: &mut Vec<Seq<FileMeta>>,
) -> Result<(), Memory>
    requires { length each.old.items ≡ length points.now }
    ensures { (units : List ManifestUnit) → version_at units at ≡ Ok version.now → each.old.items ≡ map (files_before units at) points.now → IfOk result (λ done. each.new.items ≡ map (files_before units (at + 1)) points.now) }
{
    for (i, point) in points.iter().enumerate() {
        if point.at == at {
            each[i] = files_of(alloc, version.families.as_slice(), point.family)?;
        }
    }
    Ok(())
}

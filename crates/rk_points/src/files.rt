//! The files of a family after so many units.
ghost use Rattle.std.specs.Prelude.{◌≡◌, ◌≤◌, ◌++◌, map, flat_map, filter, length, Ok, IsOk, IfOk};
ghost use Rattle.std.specs.List.{All};
ghost use Rattle.rk_log.specs.Items.{piece_bytes};
ghost use Rattle.rk_bytes.specs.Model.VersionEdit.{edit_fields};
ghost use Rattle.rk_bytes.specs.Model.Manifest.{has_id, first_version, version_after, version_at};
ghost use Rattle.rk_bytes.specs.Model.BestEfforts.{files_at};
ghost use Rattle.rk_version.specs.Units.{meaning};

use crate::Point;
use rk_bytes::{Memory, Seq};
use rk_version::{FamilyState, FileMeta, Unit, Version, VersionBuilder, copy_file};
use std::alloc::Global;

/// The files that the point's family has at the point, in rising number, and none where the family isn't live
/// there. `Memory` comes only where memory runs out.
pub fn files_at(alloc: Global, units: &[Unit<'_>], point: &Point) -> Result<Seq<FileMeta>, Memory>
    requires reads { All (λ unit. All (λ piece. IsOk (edit_fields (piece_bytes piece))) unit.pieces) units.now }
    requires applies { IsOk (version_at (map meaning units.now) (length units.now)) }
    requires within { point.now.at ≤ length units.now }
    ensures { IfOk result (λ files. files ≡ files_at (map meaning units.now) point.now.family point.now.at) }
{
    let version = version_after(alloc, &units[..point.at as usize])?;
    files_of(alloc, version.families.as_slice(), point.family)
}

/// The version after units that are applied.
pub(crate) fn version_after(alloc: Global, units: &[Unit<'_>]) -> Result<Version, Memory>
    requires { All (λ unit. All (λ piece. IsOk (edit_fields (piece_bytes piece))) unit.pieces) units.now }
    ensures { IfOk result (λ version. version_after 1 (map meaning units.now) first_version ≡ Ok version) }
{
    let mut builder = VersionBuilder::new(alloc)?;
    for unit in units {
        match builder.apply(unit) {
            Ok(()) => {}
            Err(_) => return Err(Memory),
        }
    }
    Ok(builder.into_version())
}

/// Copies of the files of the families that have this id.
pub(crate) fn files_of(
    alloc: Global,
    families: &[FamilyState],
    id: u32,
) -> Result<Seq<FileMeta>, Memory>
    ensures { IfOk result (λ files. files ≡ flat_map (λ live. live.files) (filter (has_id id) families.now)) }
{
    let mut files = Seq::new(alloc);
    for live in families {
        if live.id == id {
            copy_behind(alloc, &mut files, live.files.as_slice())?;
        }
    }
    Ok(files)
}

/// Puts copies of more files behind files.
fn copy_behind(alloc: Global, files: &mut Seq<FileMeta>, more: &[FileMeta]) -> Result<(), Memory>
    ensures { IfOk result (λ done. files.new ≡ files.old ++ more.now) }
{
    for file in more {
        files.push(copy_file(alloc, file)?)?;
    }
    Ok(())
}

//! Whether files of a version overlap.
ghost use Rattle.std.specs.Prelude.{◌≡◌, List, IfOk};
ghost use Rattle.std.specs.List.{AllByRecursion};
ghost use Rattle.rk_bytes.specs.Model.Manifest.{overlapping_level, overlap};
ghost use Rattle.rk_version.specs.Answers.{Finds};
ghost use Rattle.rk_version.specs.Bounds.{HasWholeBounds, HasFilesInOrder};
ghost use Rattle.rk_version.specs.Places.{Rises};

use crate::spot::{Spot, first_clash};
use crate::{ApplyFault, FamilyState, FileMeta};
use rk_bytes::Memory;
use std::alloc::Global;

/// Tests whether files of a family overlap at a level above 0. The fault names the lowest such family and its
/// lowest such level.
pub(crate) fn find_overlap(alloc: Global, families: &[FamilyState]) -> Result<(), ApplyFault>
    requires { AllByRecursion HasFilesInOrder families.now }
    ensures { Finds (overlap families.now) result }
{
    for live in families {
        match overlapping_level(alloc, live.files.as_slice()) {
            Ok(None) => {}
            Ok(Some(level)) => {
                return Err(ApplyFault::Overlap {
                    family: live.id,
                    level,
                });
            }
            Err(Memory) => return Err(ApplyFault::Memory),
        }
    }
    Ok(())
}

/// The lowest level above 0 at which files overlap.
fn overlapping_level(alloc: Global, files: &[FileMeta]) -> Result<Option<u32>, Memory>
    requires rise { Rises (λ file. file.number) files.now }
    requires bounds { AllByRecursion HasWholeBounds files.now }
    ensures { IfOk result (λ level. level ≡ overlapping_level files.now) }
{
    let mut spots = Vec::new(alloc);
    for file in files {
        spots.push(Spot::of(file))?;
    }
    spots.sort_by(|a, b| a.cmp(b))?;
    Ok(first_clash(spots.as_slice()))
}

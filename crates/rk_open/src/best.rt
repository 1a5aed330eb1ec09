//! A directory opened as far as whole tables go (best-efforts opening).
ghost use Rattle.std.specs.Prelude.{◌≡◌, IfSome};
ghost use Rattle.std.specs.FinMap.{get};
ghost use Rattle.rk_bytes.specs.Model.BestEfforts.{best_directory};
ghost use Rattle.rk_bytes.specs.Model.DiskImages.{IsLeft, Counts, contents_told};
ghost use Rattle.rk_open.specs.Answers.{AnswersBy, open_failed};
ghost use Rattle.rk_open.specs.Best.{best_of, best_of_last};

use crate::OpenErr;
use crate::best_manifest::open_if_complete;
use crate::manifests::manifest_numbers;
use rk_bytes::Seq;
use rk_bytes::model::Point;
use rk_disk::Disk;
use rk_view::State;
use std::alloc::Global;

/// What a directory is opened to as far as whole tables go.
#[derive(Debug, Drop)]
pub struct Best {
    /// The families that are live after all units that count, and what their tables hold at their points.
    pub state: State,
    /// The number of the manifest: the greatest one whose units that count state all that a version needs.
    pub manifest: u64,
    /// How many units of the manifest count: those before the first one that is refused.
    pub units: u64,
    /// For each family, in rising id, how many of these units count for it.
    pub points: Seq<Point>,
}

/// What the directory is opened to as far as whole tables go: by the manifest with the greatest number whose units
/// state a log number, a next file and a last sequence number, at the best points of its families. `CURRENT` isn't
/// looked at, and no log is read.
///
/// `NoUsableManifest` comes where there is no such manifest, and `UnsupportedTable` of the lowest table at the points
/// that isn't supported. `DiskFault` comes where the disk fails, and `Memory` where memory runs out.
pub fn open_best<D: Disk>(alloc: Global, disk: &mut D) -> Result<Best, OpenErr>
    ensures best { IfSome (contents_told (D.told disk.old)) (λ d. AnswersBy best_of (best_directory d) result) }
    ensures faults { Counts (open_failed result) (D.faults disk.old) (D.faults disk.new) }
    ensures left { IsLeft (D.told disk.old) (D.told disk.new) }
{
    match manifest_numbers(alloc, disk) {
        Ok(numbers) => open_last(alloc, disk, numbers.as_slice()),
        Err(why) => Err(why),
    }
}

/// What the last of the manifests with these numbers is opened to whose units are complete. No manifest before it is
/// read.
fn open_last<D: Disk>(alloc: Global, disk: &mut D, numbers: &[u64]) -> Result<Best, OpenErr>
    ensures best { IfSome (contents_told (D.told disk.old)) (λ d. AnswersBy best_of (best_of_last (get d) numbers.now) result) }
    ensures faults { Counts (open_failed result) (D.faults disk.old) (D.faults disk.new) }
    ensures left { IsLeft (D.told disk.old) (D.told disk.new) }
{
    let mut left = numbers.len();
    while left > 0 {
        left -= 1;
        match open_if_complete(alloc, disk, numbers[left]) {
            Ok(Some(best)) => return Ok(best),
            Ok(None) => {}
            Err(why) => return Err(why),
        }
    }
    Err(OpenErr::NoUsableManifest)
}

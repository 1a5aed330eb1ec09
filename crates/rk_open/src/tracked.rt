//! The logs of which a manifest says how much was synced.
ghost use Rattle.std.specs.Prelude.{◌≡◌, length, option_map, IfErr, IfOk, IfSome, Some};
ghost use Rattle.std.specs.FinMap.{get};
ghost use Rattle.rk_bytes.specs.Model.BlockEntries.{collected};
ghost use Rattle.rk_bytes.specs.Model.DiskImages.{IsLeft, Counts, contents_told};
ghost use Rattle.rk_bytes.specs.Model.FileNames.{log_name};
ghost use Rattle.rk_bytes.specs.Model.Manifest.{first_log};
ghost use Rattle.rk_bytes.specs.Model.Opening.{has_synced, tracked_log};
ghost use Rattle.rk_open.specs.Answers.{IsCause, Passes, open_failed};

use crate::OpenErr;
use crate::fault::not_read;
use rk_bytes::model::{Tracked, Version};
use rk_disk::Disk;
use rk_names::{FileName, write_name};
use rk_version::first_log;
use std::alloc::Global;

/// Tests that each tracked log which replay comes to has what was synced of it, in rising number. `MissingLog`
/// names one that isn't there, and `ShortLog` one that is too short.
pub(crate) fn check_tracked<D: Disk>(
    alloc: Global,
    disk: &mut D,
    version: &Version,
) -> Result<(), OpenErr>
    ensures logs { IfSome (contents_told (D.told disk.old)) (λ d. Passes (collected (tracked_log (get d) (first_log version.now)) version.now.wals) result) }
    ensures faults { Counts (open_failed result) (D.faults disk.old) (D.faults disk.new) }
    ensures left { IsLeft (D.told disk.old) (D.told disk.new) }
{
    let first = first_log(version);
    let mut rest = version.wals.as_slice();
    while let Some((tracked, more)) = rest.split_first() {
        check_log(alloc, disk, first, *tracked)?;
        rest = more;
    }
    Ok(())
}

/// Tests a tracked log, unless it is below the first one that is needed.
fn check_log<D: Disk>(
    alloc: Global,
    disk: &mut D,
    first: u64,
    tracked: Tracked,
) -> Result<(), OpenErr>
    ensures log { IfSome (contents_told (D.told disk.old)) (λ d. Passes (tracked_log (get d) first tracked) result) }
    ensures faults { Counts (open_failed result) (D.faults disk.old) (D.faults disk.new) }
    ensures left { IsLeft (D.told disk.old) (D.told disk.new) }
{
    if tracked.log < first {
        return Ok(());
    }
    match tracked.synced {
        Some(synced) => check_synced(alloc, disk, tracked.log, synced),
        None => Ok(()),
    }
}

/// Tests that a log has so many bytes at least.
fn check_synced<D: Disk>(
    alloc: Global,
    disk: &mut D,
    number: u64,
    synced: u64,
) -> Result<(), OpenErr>
    ensures log { IfSome (contents_told (D.told disk.old)) (λ d. Passes (has_synced (get d) number (Some synced)) result) }
    ensures faults { Counts (open_failed result) (D.faults disk.old) (D.faults disk.new) }
    ensures left { IsLeft (D.told disk.old) (D.told disk.new) }
{
    match log_size(alloc, disk, number) {
        Ok(None) => Err(OpenErr::MissingLog(number)),
        Ok(Some(found)) => {
            if found < synced {
                Err(OpenErr::ShortLog {
                    n: number,
                    stated: synced,
                    found,
                })
            } else {
                Ok(())
            }
        }
        Err(why) => Err(why),
    }
}

/// How many bytes the log with this number has, or `None` where it isn't there.
pub(crate) fn log_size<D: Disk>(
    alloc: Global,
    disk: &mut D,
    number: u64,
) -> Result<Option<u64>, OpenErr>
    ensures size { IfOk result (λ size. IfSome (contents_told (D.told disk.old)) (λ d. size ≡ option_map length (get d (log_name number)))) }
    ensures cause { IfErr result IsCause }
    ensures faults { Counts (open_failed result) (D.faults disk.old) (D.faults disk.new) }
    ensures left { IsLeft (D.told disk.old) (D.told disk.new) }
{
    let Ok(name) = write_name(alloc, &FileName::Log(number)) else {
        return Err(OpenErr::Memory);
    };
    match disk.size(name.as_str()) {
        Ok(size) => Ok(size),
        Err(why) => Err(not_read(why)),
    }
}

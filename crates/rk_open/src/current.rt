//! The manifest that `CURRENT` names.
ghost use Rattle.std.specs.Prelude.{◌≡◌, IfSome};
ghost use Rattle.std.specs.FinMap.{get};
ghost use Rattle.rk_bytes.specs.declared.model.open.OpenErr.TheVariants.{BadCurrent};
ghost use Rattle.rk_bytes.specs.Model.BlockEntries.{with_fault};
ghost use Rattle.rk_bytes.specs.Model.DiskImages.{IsLeft, Counts, contents_told};
ghost use Rattle.rk_bytes.specs.Model.FileNames.{current_manifest};
ghost use Rattle.rk_bytes.specs.Model.Opening.{named_manifest};
ghost use Rattle.rk_open.specs.Answers.{Answers, open_failed};

use crate::OpenErr;
use crate::fault::not_read;
use rk_disk::{Disk, read_file};
use rk_names::read_current;
use std::alloc::Global;

/// The number of the manifest that `CURRENT` names. `NoCurrent` and `BadCurrent` say why there is none,
/// `DiskFault` comes where the disk fails, and `Memory` where memory runs out.
pub fn named_manifest<D: Disk>(alloc: Global, disk: &mut D) -> Result<u64, OpenErr>
    ensures named { IfSome (contents_told (D.told disk.old)) (λ d. Answers (named_manifest (get d)) result) }
    ensures faults { Counts (open_failed result) (D.faults disk.old) (D.faults disk.new) }
    ensures left { IsLeft (D.told disk.old) (D.told disk.new) }
{
    match read_file(alloc, disk, "CURRENT") {
        Ok(Some(text)) => manifest_in(text.as_slice()),
        Ok(None) => Err(OpenErr::NoCurrent),
        Err(why) => Err(not_read(why)),
    }
}

/// The number of the manifest that the bytes of `CURRENT` name.
fn manifest_in(text: &[u8]) -> Result<u64, OpenErr>
    ensures { result ≡ with_fault BadCurrent (current_manifest text.now) }
{
    match read_current(text) {
        Ok(number) => Ok(number),
        Err(why) => Err(OpenErr::BadCurrent(why)),
    }
}

//! The version that a manifest amounts to, of a manifest that is read block by block.
ghost use Rattle.std.specs.Prelude.{◌≡◌, ℕ, List, [], false, true, length, IfOk, IfSome, OnOk};
ghost use Rattle.std.specs.FinMap.{get};
ghost use Rattle.rk_bytes.specs.declared.model.open.OpenErr.TheVariants.{Manifest};
ghost use Rattle.rk_bytes.specs.Model.BlockEntries.{with_fault};
ghost use Rattle.rk_bytes.specs.Model.DiskImages.{IsLeft, Counts, contents_told};
ghost use Rattle.rk_bytes.specs.Model.Manifest.{manifest_units, last_version};
ghost use Rattle.rk_bytes.specs.Model.Opening.{version_in};
ghost use Rattle.rk_bytes.specs.Model.Output.{manifest_version};
ghost use Rattle.rk_disk.specs.Faults.{disk_failed};
ghost use Rattle.rk_disk.specs.Parts.{OfFile};
ghost use Rattle.rk_manifest.specs.Folds.{HasFed, wants_more, bytes_read};
ghost use Rattle.rk_open.specs.Answers.{Answers, open_failed};
ghost use Rattle.rk_open.specs.Versions.{IsLast};

use crate::fault::not_read;
use crate::{OpenErr, named_manifest};
use rk_bytes::model::Version;
use rk_disk::{Disk, DiskErr, read_part};
use rk_log::BLOCK_LEN;
use rk_manifest::{ManifestErr, ManifestFold};
use rk_names::{FileName, write_name};
use std::alloc::Global;

/// The last version of the manifest that `CURRENT` names. `NoCurrent` and `BadCurrent` say that it names
/// none, and the others come as in `last_version`.
pub fn current_version<D: Disk>(alloc: Global, disk: &mut D) -> Result<Version, OpenErr>
    ensures version { IfSome (contents_told (D.told disk.old)) (λ d. Answers (manifest_version (get d)) result) }
    ensures last { IfOk result IsLast }
    ensures faults { Counts (open_failed result) (D.faults disk.old) (D.faults disk.new) }
    ensures left { IsLeft (D.told disk.old) (D.told disk.new) }
{
    match named_manifest(alloc, disk) {
        Ok(number) => last_version(alloc, disk, number),
        Err(why) => Err(why),
    }
}

/// The last version of the manifest with this number. `NoManifest` says that it isn't there, `Manifest`
/// that it can't be used; `DiskFault` comes where the disk fails, and `Memory` where memory runs out. One
/// buffer serves for all of its blocks.
pub fn last_version<D: Disk>(alloc: Global, disk: &mut D, number: u64) -> Result<Version, OpenErr>
    ensures version { IfSome (contents_told (D.told disk.old)) (λ d. Answers (version_in (get d) number) result) }
    ensures last { IfOk result IsLast }
    ensures faults { Counts (open_failed result) (D.faults disk.old) (D.faults disk.new) }
    ensures left { IsLeft (D.told disk.old) (D.told disk.new) }
{
    let Ok(name) = write_name(alloc, &FileName::Manifest(number)) else {
        return Err(OpenErr::Memory);
    };
    match disk.size(name.as_str()) {
        Ok(Some(size)) => match fold_file(alloc, disk, name.as_str(), size) {
            Ok(fold) => finished(fold),
            Err(why) => Err(not_read(why)),
        },
        Ok(None) => Err(OpenErr::NoManifest(number)),
        Err(why) => Err(not_read(why)),
    }
}

/// Feeds all blocks of a manifest's file, of which the disk says that it has `size` bytes.
fn fold_file<D: Disk>(
    alloc: Global,
    disk: &mut D,
    name: &str,
    size: u64,
) -> Result<ManifestFold, DiskErr>
    ensures fed { IfOk result (λ fold. OfFile (D.told disk.old) name.now size (HasFed fold true)) }
    ensures bytes { IfOk result (λ fold. (bytes : List ℕ) × HasFed fold true bytes) }
    ensures ended { IfOk result (λ fold. wants_more fold ≡ false) }
    ensures left { IsLeft (D.told disk.old) (D.told disk.new) }
    ensures faults { Counts (disk_failed result) (D.faults disk.old) (D.faults disk.new) }
{
    let mut buffer = vec![in alloc; 0; BLOCK_LEN]?;
    let mut fold = ManifestFold::new(alloc)?;
    feed_all(disk, name, size, &mut buffer, &mut fold)?;
    Ok(fold)
}

/// Feeds all blocks of a manifest's file to a fold that was fed with none.
fn feed_all<D: Disk>(
    disk: &mut D,
    name: &str,
    size: u64,
    buffer: &mut [u8],
    fold: &mut ManifestFold,
) -> Result<(), DiskErr>
    requires room { length buffer.old ≡ BLOCK_LEN }
    requires begin { bytes_read fold.old ≡ 0 }
    requires unfed { HasFed fold.old false [] }
    ensures fed { OnOk result (OfFile (D.told disk.old) name.now size (HasFed fold.new true)) }
    ensures bytes { OnOk result ((bytes : List ℕ) × HasFed fold.new true bytes) }
    ensures ended { OnOk result (wants_more fold.new ≡ false) }
    ensures left { IsLeft (D.told disk.old) (D.told disk.new) }
    ensures faults { Counts (disk_failed result) (D.faults disk.old) (D.faults disk.new) }
{
    let mut at = 0;
    loop {
        let (len, last) = read_part(disk, name, at, size, buffer)?;
        fold.feed(&buffer[..len], last)?;
        if last {
            return Ok(());
        }
        at += BLOCK_LEN as u64;
    }
}

/// The last version of the blocks that were fed.
fn finished(fold: ManifestFold) -> Result<Version, OpenErr>
    requires { wants_more fold ≡ false }
    ensures version { (bytes : List ℕ) → HasFed fold true bytes → Answers (with_fault Manifest (last_version (manifest_units bytes))) result }
    ensures no_fault { open_failed result ≡ false }
{
    match fold.finish() {
        Ok(version) => Ok(version),
        Err(ManifestErr::Fault(why)) => Err(OpenErr::Manifest(why)),
        Err(ManifestErr::Memory) => Err(OpenErr::Memory),
    }
}

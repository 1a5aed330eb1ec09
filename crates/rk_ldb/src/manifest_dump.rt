//! The command `manifest_dump`.
ghost use Rattle.std.specs.Prelude.{◌≡◌, IfOk, IfSome};
ghost use Rattle.std.specs.FinMap.{get};
ghost use Rattle.rk_bytes.specs.Model.DiskImages.{IsLeft, contents_told};
ghost use Rattle.rk_bytes.specs.Model.Output.{manifest_dump_output};
ghost use Rattle.rk_ldb.specs.Answers.{IsCommandAnswer};
ghost use Rattle.rk_ldb.specs.Stops.{TookUpTo, DiskCounts, SinkCounts};

use crate::dump::dump_file;
use crate::items::{Form, Records};
use crate::refusal::{Refusal, refusal_of, refuse};
use crate::stop::Stop;
use rk_bytes::model::Status;
use rk_disk::{Disk, Sink};
use rk_names::FileName;
use rk_open::{OpenErr, named_manifest};
use std::alloc::Global;

/// Writes a line for each item of the manifest that `CURRENT` names and lines for what stands in its
/// records, or says why there is none. The manifest is read block by block.
pub(crate) fn manifest_dump<D: Disk, S: Sink>(
    alloc: Global,
    hex: bool,
    disk: &mut D,
    out: &mut S,
) -> Result<Status, Stop>
    ensures lines { IfSome (contents_told (D.told disk.old)) (λ d. TookUpTo (S.taken out.old) (S.taken out.new) (manifest_dump_output hex (get d)).lines result) }
    ensures status { IfSome (contents_told (D.told disk.old)) (λ d. IfOk result (λ status. status ≡ (manifest_dump_output hex (get d)).status)) }
    ensures answers { IfOk result IsCommandAnswer }
    ensures disk_count { DiskCounts (D.faults disk.old) (D.faults disk.new) result }
    ensures output_count { SinkCounts (S.faults out.old) (S.faults out.new) result }
    ensures left { IsLeft (D.told disk.old) (D.told disk.new) }
{
    let form = Form {
        records: Records::Edits,
        hex,
    };
    match named_manifest(alloc, disk) {
        Ok(number) => {
            let absent = Refusal::Open(OpenErr::NoManifest(number));
            dump_file(
                alloc,
                FileName::Manifest(number),
                0,
                form,
                absent,
                disk,
                out,
            )
        }
        Err(why) => refuse(alloc, refusal_of(why)?, out),
    }
}

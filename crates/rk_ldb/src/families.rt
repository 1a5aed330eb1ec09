//! The command `families`.
ghost use Rattle.std.specs.Prelude.{◌≡◌, IfOk, IfSome};
ghost use Rattle.std.specs.FinMap.{get};
ghost use Rattle.rk_bytes.specs.Model.DiskImages.{IsLeft, contents_told};
ghost use Rattle.rk_bytes.specs.Model.Output.{families_output};
ghost use Rattle.rk_ldb.specs.Answers.{IsCommandAnswer};
ghost use Rattle.rk_ldb.specs.Stops.{TookUpTo, DiskCounts, SinkCounts};

use crate::refusal::{refusal_of, refuse};
use crate::shown::write_shown;
use crate::stop::Stop;
use rk_bytes::model::Status;
use rk_disk::{Disk, Sink};
use rk_open::current_version;
use rk_text::Line;
use std::alloc::Global;

/// Writes a line for each family of the last version of the manifest that `CURRENT` names, or says why
/// there is none. The manifest is read block by block.
pub(crate) fn families<D: Disk, S: Sink>(
    alloc: Global,
    disk: &mut D,
    out: &mut S,
) -> Result<Status, Stop>
    ensures lines { IfSome (contents_told (D.told disk.old)) (λ d. TookUpTo (S.taken out.old) (S.taken out.new) (families_output (get d)).lines result) }
    ensures status { IfSome (contents_told (D.told disk.old)) (λ d. IfOk result (λ status. status ≡ (families_output (get d)).status)) }
    ensures answers { IfOk result IsCommandAnswer }
    ensures disk_count { DiskCounts (D.faults disk.old) (D.faults disk.new) result }
    ensures output_count { SinkCounts (S.faults out.old) (S.faults out.new) result }
    ensures left { IsLeft (D.told disk.old) (D.told disk.new) }
{
    match current_version(alloc, disk) {
        Ok(version) => {
            let mut line = Line::new(alloc);
            write_shown(version.families.as_slice(), false, &mut line, out)?;
            Ok(Status::Done)
        }
        Err(why) => refuse(alloc, refusal_of(why)?, out),
    }
}

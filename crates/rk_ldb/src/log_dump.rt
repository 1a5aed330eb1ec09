//! The command `dump_wal`.
ghost use Rattle.std.specs.Prelude.{◌≡◌, IfOk, IfSome};
ghost use Rattle.std.specs.FinMap.{get};
ghost use Rattle.rk_bytes.specs.Model.DiskImages.{IsLeft, contents_told};
ghost use Rattle.rk_bytes.specs.Model.FileNames.{log_name};
ghost use Rattle.rk_bytes.specs.Model.Output.{dump_wal_output};
ghost use Rattle.rk_ldb.specs.Answers.{IsCommandAnswer};
ghost use Rattle.rk_ldb.specs.Stops.{TookUpTo, DiskCounts, SinkCounts};

use crate::dump::dump_file;
use crate::items::{Form, Records};
use crate::refusal::Refusal;
use crate::stop::Stop;
use rk_bytes::model::Status;
use rk_disk::{Disk, Sink};
use rk_names::FileName;
use std::alloc::Global;

/// Writes a line for each item of the log with this number and lines for what stands in its records,
/// or says that it isn't there. The log is read block by block.
pub(crate) fn dump_wal<D: Disk, S: Sink>(
    alloc: Global,
    number: u64,
    hex: bool,
    disk: &mut D,
    out: &mut S,
) -> Result<Status, Stop>
    ensures lines { IfSome (contents_told (D.told disk.old)) (λ d. TookUpTo (S.taken out.old) (S.taken out.new) (dump_wal_output number hex (get d (log_name number))).lines result) }
    ensures status { IfSome (contents_told (D.told disk.old)) (λ d. IfOk result (λ status. status ≡ (dump_wal_output number hex (get d (log_name number))).status)) }
    ensures answers { IfOk result IsCommandAnswer }
    ensures disk_count { DiskCounts (D.faults disk.old) (D.faults disk.new) result }
    ensures output_count { SinkCounts (S.faults out.old) (S.faults out.new) result }
    ensures left { IsLeft (D.told disk.old) (D.told disk.new) }
{
    let form = Form {
        records: Records::Batches,
        hex,
    };
    let absent = Refusal::NoLog(number);
    dump_file(
        alloc,
        FileName::Log(number),
        number,
        form,
        absent,
        disk,
        out,
    )
}

//! A log's file, dumped or refused.
ghost use Rattle.std.specs.Prelude.{◌≡◌, ◌≢◌, IfOk, IfSome};
ghost use Rattle.std.specs.FinMap.{get};
ghost use Rattle.rk_bytes.specs.Model.DiskImages.{IsLeft, contents_told};
ghost use Rattle.rk_bytes.specs.Model.FileNames.{printed_name};
ghost use Rattle.rk_ldb.specs.Answers.{IsCommandAnswer};
ghost use Rattle.rk_ldb.specs.Refusals.{words_of};
ghost use Rattle.rk_ldb.specs.Stops.{TookUpTo, DiskCounts, SinkCounts};
ghost use Rattle.rk_ldb.specs.Wrote.{file_output};

use crate::items::{Form, write_file};
use crate::refusal::{Refusal, refuse};
use crate::stop::Stop;
use rk_bytes::model::Status;
use rk_disk::{Disk, Sink};
use rk_names::{FileName, write_name};
use std::alloc::Global;

/// Writes the lines of a log's file, whose recyclable headers, if any, hold this number, or the line that
/// refuses where it isn't there.
pub(crate) fn dump_file<D: Disk, S: Sink>(
    alloc: Global,
    name: FileName,
    number: u64,
    form: Form,
    absent: Refusal,
    disk: &mut D,
    out: &mut S,
) -> Result<Status, Stop>
    requires not_lost { name ≢ FileName.Lost }
    requires not_other { name ≢ FileName.Other }
    ensures lines { IfSome (contents_told (D.told disk.old)) (λ d. TookUpTo (S.taken out.old) (S.taken out.new) (file_output (words_of absent) form number (get d (printed_name name))).lines result) }
    ensures status { IfSome (contents_told (D.told disk.old)) (λ d. IfOk result (λ status. status ≡ (file_output (words_of absent) form number (get d (printed_name name))).status)) }
    ensures answers { IfOk result IsCommandAnswer }
    ensures disk_count { DiskCounts (D.faults disk.old) (D.faults disk.new) result }
    ensures output_count { SinkCounts (S.faults out.old) (S.faults out.new) result }
    ensures left { IsLeft (D.told disk.old) (D.told disk.new) }
{
    let name = write_name(alloc, &name)?;
    match disk.size(name.as_str())? {
        Some(size) => {
            write_file(alloc, name.as_str(), number, size, form, disk, out)?;
            Ok(Status::Done)
        }
        None => refuse(alloc, absent, out),
    }
}

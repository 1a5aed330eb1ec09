//! The commands `sst`, on one table.
ghost use Rattle.std.specs.Prelude.{◌≡◌, ◌++◌, IfOk, IfSome, map};
ghost use Rattle.std.specs.FinMap.{get};
ghost use Rattle.rk_bytes.specs.Model.DiskImages.{IsLeft, contents_told};
ghost use Rattle.rk_bytes.specs.Model.FileNames.{table_name};
ghost use Rattle.rk_bytes.specs.Model.Lines.{entry_line, range_line};
ghost use Rattle.rk_bytes.specs.Model.Output.{sst_output};
ghost use Rattle.rk_sst.specs.Opened.{IsOpen};
ghost use Rattle.rk_ldb.specs.Answers.{IsCommandAnswer};
ghost use Rattle.rk_ldb.specs.Stops.{TookUpTo, DiskCounts, SinkCounts};
ghost use Rattle.rk_ldb.specs.Tables.{table_stop, scan_lines, open_lines};

use crate::lines::write_line;
use crate::refusal::{Refusal, refuse};
use crate::shown::write_shown;
use crate::stop::Stop;
use rk_bytes::Seq;
use rk_bytes::model::{SstPart, Status};
use rk_disk::{Disk, Sink};
use rk_open::OpenErr;
use rk_sst::{OpenTable, SstErr, open_table};
use rk_text::Line;
use std::alloc::Global;

/// Writes the lines of what is asked of the table with this number, or says why it isn't good. Its blocks
/// are read one after another, each once where it is kept, and no more than one block's records are held.
pub(crate) fn sst<D: Disk, S: Sink>(
    alloc: Global,
    number: u64,
    part: SstPart,
    hex: bool,
    disk: &mut D,
    out: &mut S,
) -> Result<Status, Stop>
    ensures lines { IfSome (contents_told (D.told disk.old)) (λ d. TookUpTo (S.taken out.old) (S.taken out.new) (sst_output number part hex (get d (table_name number))).lines result) }
    ensures status { IfSome (contents_told (D.told disk.old)) (λ d. IfOk result (λ status. status ≡ (sst_output number part hex (get d (table_name number))).status)) }
    ensures answers { IfOk result IsCommandAnswer }
    ensures disk_count { DiskCounts (D.faults disk.old) (D.faults disk.new) result }
    ensures output_count { SinkCounts (S.faults out.old) (S.faults out.new) result }
    ensures left { IsLeft (D.told disk.old) (D.told disk.new) }
{
    match open_table(alloc, disk, number) {
        Ok(mut table) => write_table(alloc, number, &mut table, part, hex, disk, out),
        Err(why) => refuse(alloc, table_refusal(number, why)?, out),
    }
}

/// The refusal of a table that isn't opened, or the stop that a fault of the disk or want of memory is.
fn table_refusal(number: u64, why: SstErr) -> Result<Refusal, Stop>
    ensures { result ≡ table_stop number why }
{
    match why {
        SstErr::NoTable => Ok(Refusal::NoTable(number)),
        SstErr::Damaged { why, place } => Ok(Refusal::Open(OpenErr::DamagedTable {
            n: number,
            why,
            place,
        })),
        SstErr::Unsupported(what) => {
            Ok(Refusal::Open(OpenErr::UnsupportedTable { n: number, what }))
        }
        SstErr::DiskFault => Err(Stop::Disk),
        SstErr::Memory => Err(Stop::Memory),
    }
}

/// Writes the lines of what is asked of a good table.
fn write_table<D: Disk, S: Sink>(
    alloc: Global,
    number: u64,
    table: &mut OpenTable,
    part: SstPart,
    hex: bool,
    disk: &mut D,
    out: &mut S,
) -> Result<Status, Stop>
    requires { IfSome (contents_told (D.told disk.old)) (IsOpen table.old) }
    ensures lines { IfSome (contents_told (D.told disk.old)) (λ files. TookUpTo (S.taken out.old) (S.taken out.new) (open_lines part hex table.old files) result) }
    ensures status { IfSome (contents_told (D.told disk.old)) (λ files. IfOk result (λ status. status ≡ Status.Done)) }
    ensures answers { IfOk result IsCommandAnswer }
    ensures disk_count { DiskCounts (D.faults disk.old) (D.faults disk.new) result }
    ensures output_count { SinkCounts (S.faults out.old) (S.faults out.new) result }
    ensures left { IsLeft (D.told disk.old) (D.told disk.new) }
{
    let mut line = Line::new(alloc);
    match part {
        SstPart::Check => {
            line.set_good_table(table.table())?;
            write_line(line.as_slice(), out)?;
            Ok(Status::Done)
        }
        SstPart::Scan => write_scan(alloc, number, table, hex, &mut line, disk, out),
        SstPart::Properties => {
            write_shown(table.table().properties.as_slice(), hex, &mut line, out)?;
            Ok(Status::Done)
        }
    }
}

/// Writes the line of each record that is left of a good table, and then of each of its range deletions.
/// A table that has changed since it was opened is refused where that shows.
fn write_scan<D: Disk, S: Sink>(
    alloc: Global,
    number: u64,
    table: &mut OpenTable,
    hex: bool,
    line: &mut Line,
    disk: &mut D,
    out: &mut S,
) -> Result<Status, Stop>
    requires { IfSome (contents_told (D.told disk.old)) (IsOpen table.old) }
    ensures lines { IfSome (contents_told (D.told disk.old)) (λ files. TookUpTo (S.taken out.old) (S.taken out.new) (scan_lines hex table.old files) result) }
    ensures status { IfSome (contents_told (D.told disk.old)) (λ files. IfOk result (λ status. status ≡ Status.Done)) }
    ensures answers { IfOk result IsCommandAnswer }
    ensures disk_count { DiskCounts (D.faults disk.old) (D.faults disk.new) result }
    ensures output_count { SinkCounts (S.faults out.old) (S.faults out.new) result }
    ensures left { IsLeft (D.told disk.old) (D.told disk.new) }
{
    let mut used = Seq::new(alloc);
    loop {
        match table.next_records_over(disk, used) {
            Ok(Some(records)) => {
                write_shown(records.as_slice(), hex, line, out)?;
                used = records;
            }
            Ok(None) => break,
            Err(why) => return refuse(alloc, table_refusal(number, why)?, out),
        }
    }
    write_shown(table.table().ranges.as_slice(), hex, line, out)?;
    Ok(Status::Done)
}

//! The records of a table that is open, as one run.
ghost use Rattle.std.specs.Prelude.{◌≡◌, ◌≤◌, ◌++◌, [], false, true, IfErr, IfOk, IfSome, OnOk};
ghost use Rattle.std.specs.List.{AllByRecursion};
ghost use Rattle.rk_bytes.specs.Model.DiskImages.{IsLeft, Counts, contents_told};
ghost use Rattle.rk_bytes.specs.Model.Opening.{are_within, greatest_sequence};
ghost use Rattle.rk_version.specs.Bounds.{HasWholeBounds};
ghost use Rattle.rk_sst.specs.Opened.{IsOpen, records_left};
ghost use Rattle.rk_sst.specs.Rising.{RiseFrom};
ghost use Rattle.rk_open.specs.Answers.{Answers, Passes, open_failed};
ghost use Rattle.rk_open.specs.Faults.{table_fault};
ghost use Rattle.rk_open.specs.Tables.{run_within};

use crate::OpenErr;
use crate::bounds::are_within;
use rk_bytes::Seq;
use rk_bytes::model::FileMeta;
use rk_disk::Disk;
use rk_ikey::{Record, TOP};
use rk_sst::{OpenTable, SstErr};
use std::alloc::Global;

/// The records of an open table from its next data block on, of which each is tested against the bounds that are
/// stated for its file. `OutOfBounds` comes where one lies outside.
pub(crate) fn read_run<D: Disk>(
    alloc: Global,
    disk: &mut D,
    file: &FileMeta,
    table: &mut OpenTable,
) -> Result<Seq<Record>, OpenErr>
    requires bounds { HasWholeBounds file.now }
    requires opened { IfSome (contents_told (D.told disk.old)) (IsOpen table.old) }
    ensures run { IfSome (contents_told (D.told disk.old)) (λ d. Answers (run_within file.now (records_left table.old d)) result) }
    ensures rising { IfOk result (RiseFrom table.old.table.family table.old.last) }
    ensures table { table.new.table ≡ table.old.table }
    ensures faults { Counts (open_failed result) (D.faults disk.old) (D.faults disk.new) }
    ensures left { IsLeft (D.told disk.old) (D.told disk.new) }
{
    let mut run = empty_run(alloc, table.table().entries)?;
    loop {
        match table.next_records(disk) {
            Ok(Some(records)) => join(file, records, &mut run)?,
            Ok(None) => return Ok(Seq::from_vec(run)),
            Err(why) => return Err(table_fault(file.number, why)),
        }
    }
}

/// No record, and room for so many.
fn empty_run(alloc: Global, entries: u64) -> Result<Vec<Record>, OpenErr>
    ensures run { IfOk result (λ run. run.items ≡ []) }
    ensures memory { IfErr result (λ why. why ≡ OpenErr.Memory) }
{
    match Vec::with_capacity(alloc, usize::try_from(entries).unwrap_or(0)) {
        Ok(run) => Ok(run),
        Err(_) => Err(OpenErr::Memory),
    }
}

/// Puts the records at the end of the run of a table. `OutOfBounds` comes where one lies outside the bounds that
/// are stated for its file.
fn join(file: &FileMeta, records: Seq<Record>, run: &mut Vec<Record>) -> Result<(), OpenErr>
    requires bounds { HasWholeBounds file.now }
    requires sequences { AllByRecursion (λ r. r.sequence ≤ TOP) records }
    ensures joined { OnOk result ((run.new.items ≡ run.old.items ++ records) × (are_within file.now records ≡ true)) }
    ensures within { Passes (run_within file.now records) result }
    ensures calm { open_failed result ≡ false }
{
    if !are_within(file, records.as_slice()) {
        return Err(OpenErr::OutOfBounds(file.number));
    }
    match run.append(&mut records.into_vec()) {
        Ok(()) => Ok(()),
        Err(_) => Err(OpenErr::Memory),
    }
}

/// Why nothing is opened where a table with this number isn't, or gives no records.
pub(crate) fn table_fault(number: u64, why: SstErr) -> OpenErr
    ensures { result ≡ table_fault number why }
{
    match why {
        SstErr::NoTable => OpenErr::MissingTable(number),
        SstErr::Damaged { why, place } => OpenErr::DamagedTable {
            n: number,
            why,
            place,
        },
        SstErr::Unsupported(what) => OpenErr::UnsupportedTable { n: number, what },
        SstErr::DiskFault => OpenErr::DiskFault,
        SstErr::Memory => OpenErr::Memory,
    }
}

/// The greatest sequence number of the records, 0 with none.
pub(crate) fn greatest_sequence(records: &[Record]) -> u64
    ensures { result ≡ greatest_sequence records.now }
{
    let mut top = 0;
    for record in records {
        top = top.max(record.sequence);
    }
    top
}

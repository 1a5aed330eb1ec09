//! A table that a version lists, read whole.
ghost use Rattle.std.specs.Prelude.{◌≡◌, map, IfOk, IfSome, MatchResult};
ghost use Rattle.std.specs.FinMap.{get};
ghost use Rattle.rk_bytes.specs.Model.DiskImages.{IsLeft, Counts, contents_told};
ghost use Rattle.rk_bytes.specs.Model.Opening.{of_family, table_file};
ghost use Rattle.rk_version.specs.Bounds.{HasWholeBounds};
ghost use Rattle.rk_sst.specs.Opened.{HasSequences};
ghost use Rattle.rk_open.specs.Answers.{RefusesAs, open_failed};
ghost use Rattle.rk_open.specs.Reads.{IsRead};
ghost use Rattle.rk_open.specs.Tables.{listed_of, IsListed};

use crate::OpenErr;
use crate::listed::ListedTable;
use crate::open_listed::open_table;
use crate::run::read_run;
use rk_bytes::model::RangeDel;
use rk_bytes::{Bytes, Memory, Seq};
use rk_disk::Disk;
use rk_ikey::Record;
use rk_sst::OpenTable;
use std::alloc::Global;

/// What a state needs of a table.
#[derive(Debug, Drop)]
pub(crate) struct ReadTable {
    /// Its records of single keys, in their order, under the family that lists it.
    pub(crate) run: Seq<Record>,
    /// Its range deletions, which aren't cut.
    pub(crate) ranges: Seq<RangeDel>,
}

impl ReadTable {
    /// The same table, as another family lists it.
    pub(crate) fn under_family(self, family: u32) -> ReadTable
        ensures run { result.run ≡ map (of_family family) self.run }
        ensures ranges { result.ranges ≡ self.ranges }
    {
        let ReadTable { run, ranges } = self;
        let mut run = run.into_vec();
        set_family(run.as_mut_slice(), family);
        ReadTable {
            run: Seq::from_vec(run),
            ranges,
        }
    }
}

/// Puts the records under a family.
fn set_family(records: &mut [Record], family: u32)
    ensures { records.new ≡ map (of_family family) records.old }
{
    for record in records.iter_mut() {
        record.family = family;
    }
}

/// Reads a table. The first refusal counts: `MissingTable`, `SizeMismatch`, `DamagedTable` or `UnsupportedTable`, and
/// `OutOfBounds`. `DiskFault` comes where the disk fails, and `Memory` where memory runs out.
pub(crate) fn read_table<D: Disk>(
    alloc: Global,
    disk: &mut D,
    listed: &ListedTable<'_>,
) -> Result<ReadTable, OpenErr>
    requires { HasWholeBounds listed.now.file.now }
    ensures table { MatchResult result (IsRead (contents_told (D.told disk.old)) (listed_of listed.now))
        (λ why. IfSome (contents_told (D.told disk.old)) (λ d. RefusesAs (table_file (get d) (listed_of listed.now)) why)) }
    ensures faults { Counts (open_failed result) (D.faults disk.old) (D.faults disk.new) }
    ensures left { IsLeft (D.told disk.old) (D.told disk.new) }
{
    match open_table(alloc, disk, listed) {
        Ok(mut table) => read_open(alloc, disk, listed, &mut table),
        Err(why) => Err(why),
    }
}

/// Reads a table that is open, as `read_table` does.
fn read_open<D: Disk>(
    alloc: Global,
    disk: &mut D,
    listed: &ListedTable<'_>,
    table: &mut OpenTable,
) -> Result<ReadTable, OpenErr>
    requires bounds { HasWholeBounds listed.now.file.now }
    requires opened { IfSome (contents_told (D.told disk.old)) (λ d. IsListed d (listed_of listed.now) table.old) }
    requires sequences { HasSequences table.old }
    ensures table { MatchResult result (IsRead (contents_told (D.told disk.old)) (listed_of listed.now))
        (λ why. IfSome (contents_told (D.told disk.old)) (λ d. RefusesAs (table_file (get d) (listed_of listed.now)) why)) }
    ensures faults { Counts (open_failed result) (D.faults disk.old) (D.faults disk.new) }
    ensures left { IsLeft (D.told disk.old) (D.told disk.new) }
{
    match read_run(alloc, disk, listed.file, table) {
        Ok(run) => match copy_ranges(alloc, table.table().ranges.as_slice()) {
            Ok(ranges) => Ok(ReadTable { run, ranges }),
            Err(Memory) => Err(OpenErr::Memory),
        },
        Err(why) => Err(why),
    }
}

/// A copy of the range deletions.
fn copy_ranges(alloc: Global, ranges: &[RangeDel]) -> Result<Seq<RangeDel>, Memory>
    ensures { IfOk result (λ copies. copies ≡ ranges.now) }
{
    let mut copies = Seq::new(alloc);
    for range in ranges {
        copies.push(copy_range(alloc, range)?)?;
    }
    Ok(copies)
}

/// A copy of the range deletion.
fn copy_range(alloc: Global, range: &RangeDel) -> Result<RangeDel, Memory>
    ensures { IfOk result (λ copy. copy ≡ range.now) }
{
    Ok(RangeDel {
        start: Bytes::copy_of(alloc, range.start.as_slice())?,
        end: Bytes::copy_of(alloc, range.end.as_slice())?,
        sequence: range.sequence,
    })
}

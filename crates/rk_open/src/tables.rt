//! The tables that a version lists, as a state.
ghost use Rattle.std.specs.Prelude.{◌≡◌, [], map, flat_map, Option, IfOk, IfSome, MatchResult};
ghost use Rattle.std.specs.List.{AllByRecursion};
ghost use Rattle.std.specs.FinMap.{get};
ghost use Rattle.rk_bytes.specs.Model.BlockEntries.{collected};
ghost use Rattle.rk_bytes.specs.Model.DiskImages.{Directory, IsLeft, Counts, contents_told};
ghost use Rattle.rk_bytes.specs.Model.Opening.{family_line, greatest_sequence, listed_tables, state_with, table_file, table_records};
ghost use Rattle.rk_version.specs.Bounds.{HasWholeBounds};
ghost use Rattle.rk_table.specs.Steps.{AreBelowTop};
ghost use Rattle.rk_view.specs.Kept.{IsTableRun};
ghost use Rattle.rk_open.specs.Answers.{AnswersAs, RefusesAs, open_failed};
ghost use Rattle.rk_open.specs.Opened.{IsTopOf};
ghost use Rattle.rk_open.specs.Reads.{AreKept, IsRead};
ghost use Rattle.rk_open.specs.Tables.{listed_of, AddsTable, AddsTables};
ghost use Rattle.rk_open.specs.Versions.{IsLast};

use crate::OpenErr;
use crate::kept::KeptTables;
use crate::listed::{ListedTable, sorted_tables};
use crate::loaded::Loaded;
use crate::ranges::{add_ranges, greatest_with};
use crate::read::{ReadTable, read_table};
use crate::run::greatest_sequence;
use rk_bytes::Memory;
use rk_bytes::model::Version;
use rk_disk::Disk;
use rk_view::State;
use std::alloc::Global;

/// Adds what the tables of a version hold to a state that has its families alone. The first refusal counts, table by
/// table in rising number: `MissingTable`, `SizeMismatch`, `DamagedTable` or `UnsupportedTable`, and `OutOfBounds`.
/// `DiskFault` comes where the disk fails, and `Memory` where memory runs out.
pub(crate) fn add_tables<D: Disk>(
    alloc: Global,
    disk: &mut D,
    version: &Version,
    state: State,
) -> Result<Loaded, OpenErr>
    requires last { IsLast version.now }
    requires state { state.state ≡ state_with (map family_line version.now.families) [] [] }
    ensures loaded { IfSome (contents_told (D.told disk.old)) (λ d. AnswersAs (λ tables loaded.
        (loaded.state.state ≡ state_with (map family_line version.now.families) tables []) × (loaded.top ≡ greatest_sequence (flat_map table_records tables)))
        (collected (table_file (get d)) (listed_tables version.now.families)) result) }
    ensures top { IfOk result (λ loaded. IsTopOf loaded.top loaded.state.state) }
    ensures faults { Counts (open_failed result) (D.faults disk.old) (D.faults disk.new) }
    ensures left { IsLeft (D.told disk.old) (D.told disk.new) }
{
    let mut state = state;
    let mut kept = KeptTables::new(alloc);
    let Ok(tables) = sorted_tables(alloc, version.families.as_slice()) else {
        return Err(OpenErr::Memory);
    };
    match add_each(alloc, disk, tables.as_slice(), &mut kept, &mut state) {
        Ok(top) => Ok(Loaded { state, top }),
        Err(why) => Err(why),
    }
}

/// Adds the tables to a state, and gives the greatest sequence number of a record in them. One that is kept is taken out
/// and isn't read again.
pub(crate) fn add_each<D: Disk>(
    alloc: Global,
    disk: &mut D,
    tables: &[ListedTable<'_>],
    kept: &mut KeptTables,
    state: &mut State,
) -> Result<u64, OpenErr>
    requires bounds { AllByRecursion (λ table. HasWholeBounds table.file.now) tables.now }
    requires kept { AreKept (contents_told (D.told disk.old)) kept.old }
    ensures tables { MatchResult result (AddsTables (contents_told (D.told disk.old)) (map listed_of tables.now) state.old.state state.new.state)
        (λ why. IfSome (contents_told (D.told disk.old)) (λ d. RefusesAs (collected (table_file (get d)) (map listed_of tables.now)) why)) }
    ensures faults { Counts (open_failed result) (D.faults disk.old) (D.faults disk.new) }
    ensures left { IsLeft (D.told disk.old) (D.told disk.new) }
{
    let mut top = 0;
    for table in tables {
        match add_table(alloc, disk, table, kept, state) {
            Ok(own) => top = top.max(own),
            Err(why) => return Err(why),
        }
    }
    Ok(top)
}

/// Adds a table to a state, and gives the greatest sequence number of a record in it.
fn add_table<D: Disk>(
    alloc: Global,
    disk: &mut D,
    listed: &ListedTable<'_>,
    kept: &mut KeptTables,
    state: &mut State,
) -> Result<u64, OpenErr>
    requires bounds { HasWholeBounds listed.now.file.now }
    requires kept { AreKept (contents_told (D.told disk.old)) kept.old }
    ensures table { MatchResult result (AddsTable (contents_told (D.told disk.old)) (listed_of listed.now) state.old.state state.new.state)
        (λ why. IfSome (contents_told (D.told disk.old)) (λ d. RefusesAs (table_file (get d) (listed_of listed.now)) why)) }
    ensures kept { AreKept (contents_told (D.told disk.old)) kept.new }
    ensures faults { Counts (open_failed result) (D.faults disk.old) (D.faults disk.new) }
    ensures left { IsLeft (D.told disk.old) (D.told disk.new) }
{
    match kept_or_read(alloc, disk, listed, kept) {
        Ok(table) => match add_read(alloc, listed, table, state) {
            Ok(top) => Ok(top),
            Err(Memory) => Err(OpenErr::Memory),
        },
        Err(why) => Err(why),
    }
}

/// The table as it was kept, or else as it is read now, which may be refused.
fn kept_or_read<D: Disk>(
    alloc: Global,
    disk: &mut D,
    listed: &ListedTable<'_>,
    kept: &mut KeptTables,
) -> Result<ReadTable, OpenErr>
    requires bounds { HasWholeBounds listed.now.file.now }
    requires kept { AreKept (contents_told (D.told disk.old)) kept.old }
    ensures table { MatchResult result (IsRead (contents_told (D.told disk.old)) (listed_of listed.now))
        (λ why. IfSome (contents_told (D.told disk.old)) (λ d. RefusesAs (table_file (get d) (listed_of listed.now)) why)) }
    ensures kept { AreKept (contents_told (D.told disk.old)) kept.new }
    ensures faults { Counts (open_failed result) (D.faults disk.old) (D.faults disk.new) }
    ensures left { IsLeft (D.told disk.old) (D.told disk.new) }
{
    match kept.take(listed) {
        Some(table) => Ok(table),
        None => read_table(alloc, disk, listed),
    }
}

/// Adds a table that was read to a state, and gives the greatest sequence number of a record in it.
fn add_read(
    alloc: Global,
    listed: &ListedTable<'_>,
    table: ReadTable,
    state: &mut State,
) -> Result<u64, Memory>
    requires bounds { HasWholeBounds listed.now.file.now }
    requires run { IsTableRun table.run }
    requires sequences { AreBelowTop table.ranges }
    ensures { (disk : Option Directory) → IsRead disk (listed_of listed.now) table → IfOk result (AddsTable disk (listed_of listed.now) state.old.state state.new.state) }
{
    let ReadTable { run, ranges } = table;
    let top = greatest_with(greatest_sequence(run.as_slice()), ranges.as_slice());
    state.reserve_runs(1)?;
    state.add_run(run);
    add_ranges(alloc, listed, ranges.as_slice(), state)?;
    Ok(top)
}

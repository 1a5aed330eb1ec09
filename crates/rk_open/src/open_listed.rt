//! A table that a version lists, opened.
ghost use Rattle.std.specs.Prelude.{◌≡◌, ◌==◌, false, IfErr, IfOk, IfSome, MatchResult, OnOk};
ghost use Rattle.std.specs.FinMap.{get};
ghost use Rattle.rk_bytes.specs.Model.DiskImages.{IsLeft, Counts, contents_told};
ghost use Rattle.rk_bytes.specs.Model.Opening.{table_file};
ghost use Rattle.rk_sst.specs.Opened.{HasLength, HasSequences};
ghost use Rattle.rk_open.specs.Answers.{RefusesAs, open_failed};
ghost use Rattle.rk_open.specs.Tables.{listed_of, IsListed};

use crate::OpenErr;
use crate::fault::not_read;
use crate::listed::ListedTable;
use crate::run::table_fault;
use rk_disk::Disk;
use rk_names::{FileName, write_name};
use rk_sst::{OpenTable, open_sized};
use std::alloc::Global;
use std::num::NonZeroUsize;

/// Opens the table, whose records come under the family that the manifest gives it. The first refusal counts:
/// `MissingTable`, `SizeMismatch`, and `DamagedTable` or `UnsupportedTable`.
pub(crate) fn open_table<D: Disk>(
    alloc: Global,
    disk: &mut D,
    listed: &ListedTable<'_>,
) -> Result<OpenTable, OpenErr>
    ensures opened { IfSome (contents_told (D.told disk.old)) (λ d. MatchResult result (IsListed d (listed_of listed.now)) (RefusesAs (table_file (get d) (listed_of listed.now)))) }
    ensures sequences { IfOk result HasSequences }
    ensures faults { Counts (open_failed result) (D.faults disk.old) (D.faults disk.new) }
    ensures left { IsLeft (D.told disk.old) (D.told disk.new) }
{
    check_size(alloc, disk, listed)?;
    let number = listed.file.number;
    match open_sized(
        alloc,
        disk,
        number,
        listed.file.size,
        every_block(listed.file.size),
    ) {
        Ok(mut table) => {
            table.set_family(listed.family);
            Ok(table)
        }
        Err(why) => Err(table_fault(number, why)),
    }
}

/// A number of blocks that a table of so many bytes doesn't exceed, so that each of them is read once: a block takes
/// more bytes than one.
fn every_block(size: u64) -> NonZeroUsize {
    NonZeroUsize::MIN.saturating_add(usize::try_from(size).unwrap_or(usize::MAX))
}

/// Tests that the table's file is there, and as long as the manifest states: `MissingTable` and `SizeMismatch` say
/// that it isn't.
fn check_size<D: Disk>(alloc: Global, disk: &mut D, listed: &ListedTable<'_>) -> Result<(), OpenErr>
    ensures size { IfSome (contents_told (D.told disk.old)) (λ d. MatchResult result (λ _. HasLength listed.now.file.now.number listed.now.file.now.size d) (RefusesAs (table_file (get d) (listed_of listed.now)))) }
    ensures faults { Counts (open_failed result) (D.faults disk.old) (D.faults disk.new) }
    ensures left { IsLeft (D.told disk.old) (D.told disk.new) }
{
    let number = listed.file.number;
    let Ok(name) = write_name(alloc, &FileName::Table(number)) else {
        return Err(OpenErr::Memory);
    };
    match disk.size(name.as_str()) {
        Ok(Some(found)) => same_size(number, listed.file.size, found),
        Ok(None) => Err(OpenErr::MissingTable(number)),
        Err(why) => Err(not_read(why)),
    }
}

/// Tests that the length of a table's file is the one that is stated: `SizeMismatch` says that it isn't.
fn same_size(number: u64, stated: u64, found: u64) -> Result<(), OpenErr>
    ensures same { OnOk result (found ≡ stated) }
    ensures differs { IfErr result (λ why. (why ≡ OpenErr.SizeMismatch number stated found) × (found == stated ≡ false)) }
{
    if found == stated {
        return Ok(());
    }
    Err(OpenErr::SizeMismatch {
        n: number,
        stated,
        found,
    })
}

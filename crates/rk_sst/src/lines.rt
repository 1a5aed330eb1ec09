//! The lines of what is asked of a table, as one text.
ghost use Rattle.std.specs.Prelude.{◌≡◌, ◌++◌, map, OnOk, IfOk, IfSome};
ghost use Rattle.rk_bytes.specs.Model.DiskImages.{IsLeft, contents_told, Counts};
ghost use Rattle.rk_bytes.specs.Model.Lines.{good_line, entry_line, range_line, property_line};
ghost use Rattle.rk_bytes.specs.Model.Output.{joined};
ghost use Rattle.rk_sst.specs.Errors.{disk_failed};
ghost use Rattle.rk_sst.specs.Opened.{IsOpen};
ghost use Rattle.rk_sst.specs.Lines.{TellsLines, TellsAsked, TellsScan};

use crate::{OpenTable, Record, SstErr, TableRef, open_table};
use rk_bytes::model::{Property, RangeDel, SstPart};
use rk_bytes::{Bytes, Memory};
use rk_disk::Disk;
use rk_text::Line;
use std::alloc::Global;

/// The lines of what is asked of the table with this number, one after another: of its status, of its records
/// and range deletions, or of its properties, with their bytes in hexadecimal or between quotation marks. All of
/// them are held at once.
///
/// `NoTable` comes where no file has the table's name, `Damaged` or `Unsupported` where the table's status is
/// that, `DiskFault` where the disk fails, and `Memory` only where memory runs out.
pub fn sst_lines<D: Disk>(
    alloc: Global,
    disk: &mut D,
    number: u64,
    part: SstPart,
    hex: bool,
) -> Result<Bytes, SstErr>
    ensures lines { IfSome (contents_told (D.told disk.old)) (λ files. TellsLines files number part hex result) }
    ensures left { IsLeft (D.told disk.old) (D.told disk.new) }
    ensures faults { Counts (disk_failed result) (D.faults disk.old) (D.faults disk.new) }
{
    match open_table(alloc, disk, number) {
        Ok(mut table) => asked_text(alloc, disk, &mut table, part, hex),
        Err(error) => Err(error),
    }
}

/// The lines of what is asked of an open table.
fn asked_text<D: Disk>(
    alloc: Global,
    disk: &mut D,
    table: &mut OpenTable,
    part: SstPart,
    hex: bool,
) -> Result<Bytes, SstErr>
    requires { IfSome (contents_told (D.told disk.old)) (IsOpen table.old) }
    ensures lines { IfSome (contents_told (D.told disk.old)) (λ files. TellsAsked part hex table.old files result) }
    ensures left { IsLeft (D.told disk.old) (D.told disk.new) }
    ensures faults { Counts (disk_failed result) (D.faults disk.old) (D.faults disk.new) }
{
    match part {
        SstPart::Check => Ok(good_text(alloc, table.table())?),
        SstPart::Scan => scan_text(alloc, disk, table, hex),
        SstPart::Properties => {
            let properties = table.table().properties.as_slice();
            Ok(property_text(alloc, properties, hex)?)
        }
    }
}

/// The line of a good table.
fn good_text(alloc: Global, table: &TableRef) -> Result<Bytes, Memory>
    ensures { IfOk result (λ text. text ≡ good_line table.now) }
{
    let mut line = Line::new(alloc);
    line.set_good_table(table)?;
    Bytes::copy_of(alloc, line.as_slice())
}

/// The lines of properties, one after another.
fn property_text(alloc: Global, properties: &[Property], hex: bool) -> Result<Bytes, Memory>
    ensures { IfOk result (λ text. text ≡ joined (map (property_line hex) properties.now)) }
{
    let mut text = Bytes::new(alloc);
    let mut line = Line::new(alloc);
    for property in properties {
        line.set_property(property, hex)?;
        text.append(line.as_slice())?;
    }
    Ok(text)
}

/// The lines of the records that are left of an open table, and then of its range deletions.
fn scan_text<D: Disk>(
    alloc: Global,
    disk: &mut D,
    table: &mut OpenTable,
    hex: bool,
) -> Result<Bytes, SstErr>
    requires { IfSome (contents_told (D.told disk.old)) (IsOpen table.old) }
    ensures lines { IfSome (contents_told (D.told disk.old)) (λ files. TellsScan hex table.old files result) }
    ensures left { IsLeft (D.told disk.old) (D.told disk.new) }
    ensures faults { Counts (disk_failed result) (D.faults disk.old) (D.faults disk.new) }
{
    let mut text = Bytes::new(alloc);
    let mut line = Line::new(alloc);
    while let Some(records) = table.next_records(disk)? {
        put_entries(&mut text, &mut line, records.as_slice(), hex)?;
    }
    put_ranges(&mut text, &mut line, table.table().ranges.as_slice(), hex)?;
    Ok(text)
}

/// Puts the lines of records at the end of the text, each made in this line.
fn put_entries(
    text: &mut Bytes,
    line: &mut Line,
    records: &[Record],
    hex: bool,
) -> Result<(), Memory>
    ensures { OnOk result (text.new ≡ text.old ++ joined (map (entry_line hex) records.now)) }
{
    for record in records {
        line.set_entry(record, hex)?;
        text.append(line.as_slice())?;
    }
    Ok(())
}

/// Puts the lines of range deletions at the end of the text, each made in this line.
fn put_ranges(
    text: &mut Bytes,
    line: &mut Line,
    ranges: &[RangeDel],
    hex: bool,
) -> Result<(), Memory>
    ensures { OnOk result (text.new ≡ text.old ++ joined (map (range_line hex) ranges.now)) }
{
    for range in ranges {
        line.set_range(range, hex)?;
        text.append(line.as_slice())?;
    }
    Ok(())
}

//! The directory's files.
ghost use Rattle.std.specs.Prelude.{◌≡◌, ◌≢◌, ◌≤◌, IfOk, OnOk, OnErr};
ghost use Rattle.std.specs.FinMap as map;
ghost use Rattle.rk_bytes.specs.Model.FileNames.{printed_name, current_text};
ghost use Rattle.rk_bytes.specs.Model.Drill.{drill_directory};
ghost use Rattle.rk_gen.specs.Files.{directory_with};

use crate::logs::{later_log, torn_log};
use crate::manifest::manifest;
use crate::table::table;
use rk_bytes::{Bytes, Memory};
use rk_disk::CalmDisk;
use rk_names::{FileName, write_name};
use std::alloc::Global;

/// The directory of this number of keys. `Memory` comes only where memory runs out.
pub fn make_directory(alloc: Global, number: u64) -> Result<CalmDisk, Memory>
    requires { number ≤ 100000 }
    ensures { IfOk result (λ disk. disk ≡ drill_directory number) }
{
    let table = table(alloc, number)?;
    directory_with(alloc, number, &table)
}

/// The directory with this table. `Memory` comes only where memory runs out.
pub(crate) fn directory_with(alloc: Global, number: u64, table: &Bytes) -> Result<CalmDisk, Memory>
    requires { number ≤ 100000 }
    ensures { IfOk result (λ disk. disk ≡ directory_with number table.now) }
{
    let size = table.as_slice().len() as u64;
    let mut disk = CalmDisk::new(alloc)?;
    put(
        alloc,
        &mut disk,
        &FileName::Manifest(2),
        &manifest(alloc, number, size)?,
    )?;
    put(alloc, &mut disk, &FileName::Current, &current(alloc)?)?;
    put(
        alloc,
        &mut disk,
        &FileName::Log(6),
        &later_log(alloc, number)?,
    )?;
    put(
        alloc,
        &mut disk,
        &FileName::Log(5),
        &torn_log(alloc, number)?,
    )?;
    put(alloc, &mut disk, &FileName::Table(4), table)?;
    Ok(disk)
}

/// What `CURRENT` holds. `Memory` comes only where memory runs out.
fn current(alloc: Global) -> Result<Bytes, Memory>
    ensures { IfOk result (λ text. text ≡ current_text 2) }
{
    let manifest = write_name(alloc, &FileName::Manifest(2))?;
    let mut text = Bytes::copy_of(alloc, manifest.as_str().as_bytes())?;
    text.append(b"\n")?;
    Ok(text)
}

/// Makes a file. Where memory runs out, it changes nothing.
fn put(alloc: Global, disk: &mut CalmDisk, name: &FileName, bytes: &Bytes) -> Result<(), Memory>
    requires not_lost { name.now ≢ FileName.Lost }
    requires not_other { name.now ≢ FileName.Other }
    ensures ok { OnOk result (disk.new ≡ map.insert disk.old (printed_name name.now) bytes.now) }
    ensures err { OnErr result (disk.new ≡ disk.old) }
{
    let name = write_name(alloc, name)?;
    disk.put_file(name.as_str(), bytes.as_slice())
}

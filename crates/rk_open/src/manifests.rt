//! The manifests of a directory, by their names' numbers.
ghost use Rattle.std.specs.Prelude.{◌≡◌, ◌++◌, [], filter_map, IfErr, IfOk, IfSome, OnOk};
ghost use Rattle.std.specs.List.{cons_option};
ghost use Rattle.rk_bytes.specs.Model.BestEfforts.{manifest_numbers, number_of_manifest};
ghost use Rattle.rk_bytes.specs.Model.DiskImages.{IsLeft, Counts, contents_told};
ghost use Rattle.rk_bytes.specs.Model.FileNames.{name_of};
ghost use Rattle.rk_bytes.specs.Model.Opening.{in_order};
ghost use Rattle.rk_open.specs.Answers.{IsCause, open_failed};
ghost use Rattle.rk_open.specs.Best.{manifests_among};

use crate::OpenErr;
use crate::fault::not_read;
use rk_bytes::{Memory, Text};
use rk_disk::Disk;
use rk_names::{FileName, read_name};
use std::alloc::Global;

/// The numbers of all manifests, rising.
pub(crate) fn manifest_numbers<D: Disk>(alloc: Global, disk: &mut D) -> Result<Vec<u64>, OpenErr>
    ensures numbers { IfOk result (λ numbers. IfSome (contents_told (D.told disk.old)) (λ d. numbers.items ≡ in_order (λ number. number) (manifest_numbers d))) }
    ensures cause { IfErr result IsCause }
    ensures faults { Counts (open_failed result) (D.faults disk.old) (D.faults disk.new) }
    ensures left { IsLeft (D.told disk.old) (D.told disk.new) }
{
    match disk.names(alloc) {
        Ok(names) => match numbers_in_order(alloc, names.as_slice()) {
            Ok(numbers) => Ok(numbers),
            Err(Memory) => Err(OpenErr::Memory),
        },
        Err(why) => Err(not_read(why)),
    }
}

/// The numbers of the manifests among names, rising.
fn numbers_in_order(alloc: Global, names: &[Text]) -> Result<Vec<u64>, Memory>
    ensures { IfOk result (λ numbers. numbers.items ≡ manifests_among names.now) }
{
    let mut numbers = numbers_among(alloc, names)?;
    numbers.sort()?;
    Ok(numbers)
}

/// The numbers of the manifests among names.
fn numbers_among(alloc: Global, names: &[Text]) -> Result<Vec<u64>, Memory>
    ensures { IfOk result (λ numbers. numbers.items ≡ filter_map (λ name. number_of_manifest (name_of name)) names.now) }
{
    let mut numbers = Vec::new(alloc);
    for name in names {
        push_number(&mut numbers, read_name(name.as_str()))?;
    }
    Ok(numbers)
}

/// Puts the number of a manifest's name at the end.
fn push_number(numbers: &mut Vec<u64>, name: FileName) -> Result<(), Memory>
    ensures { OnOk result (numbers.new.items ≡ numbers.old.items ++ cons_option (number_of_manifest name) []) }
{
    match name {
        FileName::Manifest(number) => {
            numbers.push(number)?;
            Ok(())
        }
        _ => Ok(()),
    }
}

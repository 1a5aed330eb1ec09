//! The files of a family, in rising number.
ghost use Rattle.std.specs.Prelude.{◌≡◌, ◌==◌, ◌&&◌, false, not, filter, IfOk};
ghost use Rattle.std.specs.List.{list_any};
ghost use Rattle.rk_bytes.specs.Model.Manifest.{has_number, add_meta};
ghost use Rattle.rk_version.specs.Keyed.{found_all};
ghost use Rattle.rk_version.specs.Places.{Rises};

use crate::FileMeta;
use crate::copy::copy_file;
use crate::place::place_of_file;
use rk_bytes::{Memory, Seq};
use std::alloc::Global;

/// Whether one of the files has this number.
pub(crate) fn has_file(files: &[FileMeta], number: u64) -> bool
    requires { Rises (λ file. file.number) files.now }
    ensures { result ≡ list_any (has_number number) files.now }
{
    place_of_file(files, number).is_ok()
}

/// Whether the one with this number is at this level.
pub(crate) fn has_file_at(files: &[FileMeta], level: u32, number: u64) -> bool
    requires { Rises (λ file. file.number) files.now }
    ensures { result ≡ list_any (λ file. has_number number file && file.level == level) files.now }
{
    match place_of_file(files, number) {
        Ok(place) => files[place].level == level,
        Err(_) => false,
    }
}

/// The files with one more, whose number none of them has.
pub(crate) fn with_file(files: Seq<FileMeta>, file: FileMeta) -> Result<Seq<FileMeta>, Memory>
    requires rise { Rises (λ file. file.number) files }
    requires free { list_any (has_number file.number) files ≡ false }
    ensures { IfOk result (λ more. more ≡ add_meta file files) }
{
    let mut files = files.into_vec();
    match place_of_file(&files, file.number) {
        Ok(_) => unreachable!(),
        Err(place) => files.insert(place, file)?,
    }
    Ok(Seq::from_vec(files))
}

/// The files without the one that has this number, if one has it. Takes no memory.
pub(crate) fn without_file(files: Seq<FileMeta>, number: u64) -> Seq<FileMeta>
    requires { Rises (λ file. file.number) files }
    ensures { result ≡ filter (λ file. not (has_number number file)) files }
{
    let mut files = files.into_vec();
    if let Ok(place) = place_of_file(&files, number) {
        files.remove(place);
    }
    Seq::from_vec(files)
}

/// Copies of the files that have these numbers, one for each number that a file has.
pub(crate) fn copy_found(
    alloc: Global,
    files: &[FileMeta],
    numbers: &[u64],
) -> Result<Seq<FileMeta>, Memory>
    requires { Rises (λ file. file.number) files.now }
    ensures { IfOk result (λ found. found ≡ found_all (λ file. file.number) files.now numbers.now) }
{
    let mut found = Seq::new(alloc);
    for number in numbers {
        if let Ok(place) = place_of_file(files, *number) {
            found.push(copy_file(alloc, &files[place])?)?;
        }
    }
    Ok(found)
}

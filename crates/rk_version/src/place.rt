//! Where a thing with a number stands, or belongs, among things in rising number.
ghost use Rattle.rk_version.specs.Places.{Rises, IsPlace};

use crate::{FamilyState, FileMeta, Tracked};

/// The place of the file with this number, or in an `Err` the one where it belongs.
pub(crate) fn place_of_file(files: &[FileMeta], number: u64) -> Result<usize, usize>
    requires { Rises (λ file. file.number) files.now }
    ensures { IsPlace (λ file. file.number) number files.now result }
{
    files.binary_search_by_key(&number, |file| file.number)
}

/// The same of a family with this id.
pub(crate) fn place_of_family(families: &[FamilyState], id: u32) -> Result<usize, usize>
    requires { Rises (λ live. live.id) families.now }
    ensures { IsPlace (λ live. live.id) id families.now result }
{
    families.binary_search_by_key(&id, |live| live.id)
}

/// The same of a tracked log with this number.
pub(crate) fn place_of_log(logs: &[Tracked], log: u64) -> Result<usize, usize>
    requires { Rises (λ tracked. tracked.log) logs.now }
    ensures { IsPlace (λ tracked. tracked.log) log logs.now result }
{
    logs.binary_search_by_key(&log, |tracked| tracked.log)
}

//! Copies of a version and of its parts.
ghost use Rattle.std.specs.Prelude.{◌≡◌, IfOk};

use crate::{FamilyState, FileMeta, Version};
use rk_bytes::{Bytes, Memory, Seq};
use std::alloc::Global;

/// A copy of the version.
pub(crate) fn copy_version(alloc: Global, version: &Version) -> Result<Version, Memory>
    ensures { IfOk result (λ copy. copy ≡ version.now) }
{
    Ok(Version {
        families: copy_families(alloc, version.families.as_slice())?,
        log_seen: version.log_seen,
        next_file: version.next_file,
        last_sequence: version.last_sequence,
        least_log: version.least_log,
        greatest_family: version.greatest_family,
        wals: Seq::from_vec(Vec::from_slice(alloc, version.wals.as_slice())?),
    })
}

/// A copy of the families.
fn copy_families(alloc: Global, families: &[FamilyState]) -> Result<Seq<FamilyState>, Memory>
    ensures { IfOk result (λ copy. copy ≡ families.now) }
{
    let mut copies = Seq::new(alloc);
    for live in families {
        copies.push(copy_family(alloc, live)?)?;
    }
    Ok(copies)
}

/// A copy of the family.
pub(crate) fn copy_family(alloc: Global, live: &FamilyState) -> Result<FamilyState, Memory>
    ensures { IfOk result (λ copy. copy ≡ live.now) }
{
    Ok(FamilyState {
        id: live.id,
        name: Bytes::copy_of(alloc, live.name.as_slice())?,
        log: live.log,
        files: copy_files(alloc, live.files.as_slice())?,
    })
}

/// A copy of the files.
fn copy_files(alloc: Global, files: &[FileMeta]) -> Result<Seq<FileMeta>, Memory>
    ensures { IfOk result (λ copy. copy ≡ files.now) }
{
    let mut copies = Seq::new(alloc);
    for file in files {
        copies.push(copy_file(alloc, file)?)?;
    }
    Ok(copies)
}

/// A copy of the file. `Memory` comes only where memory runs out.
pub fn copy_file(alloc: Global, file: &FileMeta) -> Result<FileMeta, Memory>
    ensures { IfOk result (λ copy. copy ≡ file.now) }
{
    Ok(FileMeta {
        number: file.number,
        level: file.level,
        size: file.size,
        smallest: Bytes::copy_of(alloc, file.smallest.as_slice())?,
        largest: Bytes::copy_of(alloc, file.largest.as_slice())?,
        seqs: file.seqs,
    })
}

//! Manifests of a few records. Each checksum was computed by a program of another language.
use rk_edit::EditFault;
use rk_log::{BLOCK_LEN, GapWhy};
use rk_manifest::*;
use rk_version::ApplyFault;
use std::alloc::{AllocGlobal, Global};
use std::process::Abort;
use std::test::Fail;

/// The edit of a new database: comparator, log number 3, next file 4, last sequence 0.
const FIRST: &[u8] =
    b"\x91\x8d\x74\x51\x22\0\x01\x01\x1aleveldb.BytewiseComparator\x02\x03\x03\x04\x04\0";

/// Edits of which 2, 1 and 0 more come in their group. The last one states the next file 10.
const TWO_MORE: &[u8] = b"\x39\x2a\x60\x12\x03\0\x01\xac\x02\x02";

const ONE_MORE: &[u8] = b"\x98\x04\xb8\x2a\x03\0\x01\xac\x02\x01";

const NO_MORE: &[u8] = b"\x78\xfb\xb4\x65\x05\0\x01\xac\x02\0\x03\x0a";

/// An edit that deletes file 9 at level 1, which isn't there.
const DELETE: &[u8] = b"\xde\x49\x29\x4c\x03\0\x01\x06\x01\x09";

/// An edit that states the next file 9, and the same with another checksum.
const NEXT_FILE: &[u8] = b"\xb8\xfd\x25\x27\x02\0\x01\x03\x09";

const DAMAGED: &[u8] = b"\xb9\xfd\x25\x27\x02\0\x01\x03\x09";

/// An edit with a tag that isn't supported.
const UNSUPPORTED: &[u8] = b"\x21\x36\xe2\xd8\x01\0\x01\x66";

/// The next file of the last version, by the manifest's units.
fn by_units(alloc: Global, manifest: &[u8]) -> Result<Option<u64>, ManifestErr> {
    let units = read_units(alloc, manifest)?;
    Ok(last_version(alloc, &units)?.next_file)
}

/// The same by a fold over the file's only block.
fn by_fold(alloc: Global, manifest: &[u8]) -> Result<Option<u64>, ManifestErr> {
    if manifest.len() > BLOCK_LEN {
        return Err(ManifestErr::Memory);
    }
    let mut fold = ManifestFold::new(alloc)?;
    fold.feed(manifest, true)?;
    Ok(fold.finish()?.next_file)
}

/// The same by a fold over a whole block and the last one.
fn by_blocks(alloc: Global, first: &[u8], rest: &[u8]) -> Result<Option<u64>, ManifestErr> {
    if first.len() != BLOCK_LEN || rest.len() > BLOCK_LEN {
        return Err(ManifestErr::Memory);
    }
    let mut fold = ManifestFold::new(alloc)?;
    fold.feed(first, false)?;
    fold.feed(rest, true)?;
    Ok(fold.finish()?.next_file)
}

/// The manifest of these records has a last version with this next file, or this fault.
fn assert_last<R: Abort + AllocGlobal>(
    rt: &R,
    records: &[&[u8]],
    wanted: Result<Option<u64>, ManifestErr>,
) -> Result<(), Fail> {
    let mut manifest = Vec::new(rt.alloc());
    for record in records {
        manifest.extend_from_slice(record)?;
    }
    assert_eq!(rt; by_units(rt.alloc(), manifest.as_slice()), wanted);
    assert_eq!(rt; by_fold(rt.alloc(), manifest.as_slice()), wanted);
    Ok(())
}

fn damaged(place: u64) -> Result<Option<u64>, ManifestErr> {
    let why = ManifestWhy::Gap(GapWhy::Checksum);
    Err(ManifestErr::Fault(ManifestFault::Damaged { place, why }))
}

fn bad_edit(unit: u64, why: EditWhy) -> Result<Option<u64>, ManifestErr> {
    Err(ManifestErr::Fault(ManifestFault::BadEdit { unit, why }))
}

/// A manifest's records, and the next file of its last version or its fault.
type Case<'a> = (&'a [&'a [u8]], Result<Option<u64>, ManifestErr>);

#[test]
fn a_group_counts_once_it_is_whole(rt: HostRuntime) -> Result<(), Fail> {
    let bad_group = Err(ManifestErr::Fault(ManifestFault::BadGroup { unit: 2 }));
    let cases: [Case<'_>; 6] = [
        (&[FIRST], Ok(Some(4))),
        (&[FIRST, ONE_MORE, NO_MORE], Ok(Some(10))),
        (&[FIRST, NO_MORE], Ok(Some(10))),
        (&[FIRST, TWO_MORE, ONE_MORE], Ok(Some(4))),
        (&[FIRST, TWO_MORE, ONE_MORE, ONE_MORE], bad_group),
        (&[FIRST, ONE_MORE, NEXT_FILE], bad_group),
    ];
    for (records, wanted) in cases {
        assert_last(&rt, records, wanted)?;
    }
    Ok(())
}

#[test]
fn the_first_fault_counts(rt: HostRuntime) -> Result<(), Fail> {
    let no_log = Err(ManifestErr::Fault(ManifestFault::NoFields(Which::LogNumber)));
    let absent = bad_edit(2, EditWhy::Apply(ApplyFault::DeleteAbsent(9)));
    let unread = EditFault::UnsupportedTag {
        tag: 0x66,
        place: 0,
    };
    let cases: [Case<'_>; 7] = [
        (&[], no_log),
        (&[NEXT_FILE], no_log),
        (&[FIRST, &NEXT_FILE[..8]], Ok(Some(4))),
        (&[FIRST, DAMAGED], damaged(41)),
        (&[NEXT_FILE, DAMAGED], damaged(9)),
        (&[FIRST, DELETE, DAMAGED], absent),
        (&[FIRST, UNSUPPORTED], bad_edit(2, EditWhy::Read(unread))),
    ];
    for (records, wanted) in cases {
        assert_last(&rt, records, wanted)?;
    }
    Ok(())
}

/// The group's first edit fills the first block: it states the next file 9, behind which stands a field that
/// is passed over.
#[test]
fn a_group_may_span_blocks(rt: HostRuntime) -> Result<(), Fail> {
    let mut block = Vec::from_slice(rt.alloc(), FIRST)?;
    block.extend_from_slice(
        b"\x94\xa0\x4e\xa9\xd0\x7f\x01\xac\x02\x01\x03\x09\xe4\x40\xc6\xff\x01",
    )?;
    block.resize(BLOCK_LEN, 0)?;
    for (rest, next_file) in [(b"".as_slice(), 4), (NO_MORE, 10)] {
        let last = by_blocks(rt.alloc(), block.as_slice(), rest);
        assert_eq!(rt; last, Ok(Some(next_file)));
    }
    Ok(())
}

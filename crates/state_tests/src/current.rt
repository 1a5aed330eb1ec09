//! What directories in memory are opened to.

use rk_bytes::model::{CurrentFault, ManifestFault, Which};
use rk_disk::MemDisk;
use rk_open::{OpenErr, current_version, named_manifest};
use std::test::Fail;

#[test]
fn the_manifest_is_named(rt: HostRuntime) -> Result<(), Fail> {
    let alloc = rt.alloc();
    let mut disk = MemDisk::new(alloc)?;
    assert_eq!(rt; named_manifest(alloc, &mut disk), Err(OpenErr::NoCurrent));
    disk.put_file("CURRENT", b"MANIFEST-000002")?;
    let bad = OpenErr::BadCurrent(CurrentFault::NoNewline);
    assert_eq!(rt; named_manifest(alloc, &mut disk), Err(bad));
    disk.put_file("CURRENT", b"MANIFEST-000002\n")?;
    assert_eq!(rt; named_manifest(alloc, &mut disk), Ok(2));
    Ok(())
}

/// The edit of a new database as a manifest's record. Its checksum is computed elsewhere.
pub(crate) const FIRST: &[u8] =
    b"\x91\x8d\x74\x51\x22\0\x01\x01\x1aleveldb.BytewiseComparator\x02\x03\x03\x04\x04\0";

#[test]
fn the_last_version_is_found(rt: HostRuntime) -> Result<(), Fail> {
    let alloc = rt.alloc();
    let mut disk = MemDisk::new(alloc)?;
    disk.put_file("CURRENT", b"MANIFEST-000002\n")?;
    let absent = current_version(alloc, &mut disk).err();
    assert_eq!(rt; absent, Some(OpenErr::NoManifest(2)));
    disk.put_file("MANIFEST-000002", b"")?;
    let empty = current_version(alloc, &mut disk).err();
    let fault = ManifestFault::NoFields(Which::LogNumber);
    assert_eq!(rt; empty, Some(OpenErr::Manifest(fault)));
    disk.put_file("MANIFEST-000002", FIRST)?;
    let next_file = match current_version(alloc, &mut disk) {
        Ok(version) => version.next_file,
        Err(_) => None,
    };
    assert_eq!(rt; next_file, Some(4));
    Ok(())
}

//! Runs of `families` over files in memory. Checksums are computed elsewhere.
use crate::run::expect;
use rk_ldb::Status;
use std::process::Abort;
use std::test::Fail;

/// The edit of a new database as a manifest's record, and an edit that deletes a file that isn't there.
const FIRST_AND_DELETE: &[u8] =
    b"\x91\x8d\x74\x51\x22\0\x01\x01\x1aleveldb.BytewiseComparator\x02\x03\x03\x04\x04\0\
    \xde\x49\x29\x4c\x03\0\x01\x06\x01\x09";

/// Runs the command over a directory with this manifest, and compares its line and the status.
fn expect_line<R: Abort + AllocGlobal>(
    rt: &R,
    manifest: &[u8],
    line: &str,
    wanted: Status,
) -> Result<(), Fail> {
    let files = [
        ("CURRENT", b"MANIFEST-000002\n".as_slice()),
        ("MANIFEST-000002", manifest),
    ];
    expect(rt, &files, &["families"], line, wanted)
}

#[test]
fn the_families_of_the_last_version_are_listed(rt: HostRuntime) -> Result<(), Fail> {
    let line = "family 0 \"default\" log 3 files 0\n";
    expect_line(&rt, &FIRST_AND_DELETE[..41], line, Status::Done)?;
    let line = "refused: BadEdit 2 DeleteAbsent 9\n";
    expect_line(&rt, FIRST_AND_DELETE, line, Status::Refused)?;
    let line = "refused: NoFields LogNumber\n";
    expect_line(&rt, b"", line, Status::Refused)?;
    let none = "refused: NoCurrent\n";
    expect(&rt, &[], &["families"], none, Status::Refused)
}

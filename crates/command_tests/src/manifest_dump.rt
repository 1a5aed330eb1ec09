//! Runs of `manifest_dump` over files in memory. Checksums are computed elsewhere.
use crate::run::{expect, outcome};
use rk_ldb::Status;
use std::process::Abort;
use std::test::Fail;

/// A manifest of one edit.
const MANIFEST: &[u8] =
    b"\x91\x8d\x74\x51\x22\0\x01\x01\x1aleveldb.BytewiseComparator\x02\x03\x03\x04\x04\0";

const NAMED: (&str, &[u8]) = ("CURRENT", b"MANIFEST-000002\n");

const LINES: &str =
    "edit 0 34\n  comparator \"leveldb.BytewiseComparator\"\n  log_number 3\n  next_file 4\n  last_sequence 0\nend 41 Clean\n";

#[test]
fn a_manifest_is_dumped(rt: HostRuntime) -> Result<(), Fail> {
    let files = [NAMED, ("MANIFEST-000002", MANIFEST)];
    expect(&rt, &files, &["manifest_dump"], LINES, Status::Done)?;
    // One edit that doesn't read, with its bytes in hexadecimal.
    let bad = b"\x21\x36\xe2\xd8\x01\0\x01\x66".as_slice();
    let files = [NAMED, ("MANIFEST-000002", bad)];
    let lines = "edit 0 1\n  bad UnsupportedTag 102 0\nend 8 Clean\n";
    expect(
        &rt,
        &files,
        &["manifest_dump", "--hex"],
        lines,
        Status::Done,
    )
}

/// Runs the command over a directory with this `CURRENT` alone, and compares the line that refuses.
fn expect_refused<R: Abort + AllocGlobal>(rt: &R, current: &[u8], line: &str) -> Result<(), Fail> {
    let files = [("CURRENT", current)];
    expect(rt, &files, &["manifest_dump"], line, Status::Refused)
}

#[test]
fn no_manifest_is_refused(rt: HostRuntime) -> Result<(), Fail> {
    let none = "refused: NoCurrent\n";
    expect(&rt, &[], &["manifest_dump"], none, Status::Refused)?;
    expect_refused(&rt, b"MANIFEST-000002", "refused: BadCurrent NoNewline\n")?;
    expect_refused(
        &rt,
        b"MANIFEST-000002\n\n",
        "refused: BadCurrent Trailing\n",
    )?;
    expect_refused(&rt, b"000002.log\n", "refused: BadCurrent NotManifest\n")?;
    expect_refused(&rt, b"MANIFEST-000009\n", "refused: NoManifest 9\n")
}

/// The size of `CURRENT` and its bytes, the size of the manifest and its bytes.
#[test]
fn each_call_of_the_disk_may_fail(rt: HostRuntime) -> Result<(), Fail> {
    let files = [NAMED, ("MANIFEST-000002", MANIFEST)];
    for call in 1..=4 {
        let failing = (Some(call), None);
        let (status, _, out) = outcome(rt.alloc(), &files, failing, &["manifest_dump"])?;
        assert_eq!(rt; out.taken(), b"fault: disk\n".as_slice(), "at {call}");
        assert_eq!(rt; status, Status::DiskFault);
    }
    Ok(())
}

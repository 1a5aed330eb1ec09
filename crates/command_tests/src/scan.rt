//! Runs of `scan` over files in memory. Checksums are computed elsewhere.
use crate::run::{TWO_RECORDS, expect, outcome};
use rk_ldb::Status;
use std::process::Abort;
use std::test::Fail;

/// The edit of a new database as a manifest's record.
pub(crate) const FIRST: &[u8] =
    b"\x91\x8d\x74\x51\x22\0\x01\x01\x1aleveldb.BytewiseComparator\x02\x03\x03\x04\x04\0";

/// A record of a batch of three puts that says there are two.
const WRONG_COUNT: &[u8] =
    b"\x8e&u\x15\x1b\0\x01\x05\0\0\0\0\0\0\0\x02\0\0\0\x01\x01a\x011\x01\x01b\x012\x01\x01c\x013";

/// A record of a batch at sequence number 3 that puts `b`.
const B_AT_THREE: &[u8] = b"V#\x0a\x03\x11\0\x01\x03\0\0\0\0\0\0\0\x01\0\0\0\x01\x01b\x012";

/// Runs a command over a new database with these logs, and compares what was written and the status.
pub(crate) fn expect_over<R: Abort + AllocGlobal>(
    rt: &R,
    logs: [(&str, &[u8]); 2],
    words: &[&str],
    lines: &str,
    wanted: Status,
) -> Result<(), Fail> {
    let files = [
        ("CURRENT", b"MANIFEST-000002\n".as_slice()),
        ("MANIFEST-000002", FIRST),
        logs[0],
        logs[1],
    ];
    expect(rt, &files, words, lines, wanted)
}

#[test]
fn two_keys_are_shown(rt: HostRuntime) -> Result<(), Fail> {
    let logs = [
        ("000003.log", TWO_RECORDS.as_slice()),
        ("000004.log", b"".as_slice()),
    ];
    let usage = "usage: scan get families manifest_dump dump_wal check repair sst drill\n";
    let none = "refused: NoFamily \"f\"\n";
    let cases: [(&[&str], &str, Status); 7] = [
        (&["get", "a"], "\"1\"\n", Status::Done),
        (&["get", "0x61", "--hex"], "0x31\n", Status::Done),
        (&["get", "z"], "not found\n", Status::NotFound),
        (&["get", "0xZZ"], usage, Status::Usage),
        (&["scan", "--from=b"], "\"b\" => \"2\"\n", Status::Done),
        (&["scan", "--to=b"], "\"a\" => \"1\"\n", Status::Done),
        (&["scan", "--family=f"], none, Status::Refused),
    ];
    for (words, lines, wanted) in cases {
        expect_over(&rt, logs, words, lines, wanted)?;
    }
    Ok(())
}

#[test]
fn the_modes_tell_what_becomes_of_damaged_logs(rt: HostRuntime) -> Result<(), Fail> {
    let empty = ("000009.log", b"".as_slice());
    let wrong = [("000003.log", WRONG_COUNT), empty];
    let cut = [("000003.log", &TWO_RECORDS[..47]), empty];
    let mut damaged = TWO_RECORDS;
    damaged[24] = 0;
    let five = ("000005.log", damaged.as_slice());
    let follows = [five, ("000007.log", &TWO_RECORDS[24..])];
    let later = [five, ("000007.log", B_AT_THREE)];
    let a = "\"a\" => \"1\"\n";
    let done = Status::Done;
    let no = Status::Refused;
    expect_over(&rt, wrong, &["scan", "--mode=3"], "", done)?;
    let why = "refused: Corrupt 3 0 WrongCount 2 3\n";
    expect_over(&rt, wrong, &["scan", "--mode=1"], why, no)?;
    for mode in ["--mode=0", "--mode=2", "--mode=3"] {
        expect_over(&rt, cut, &["scan", mode], a, done)?;
    }
    let why = "refused: Corrupt 3 24 Torn\n";
    expect_over(&rt, cut, &["scan", "--mode=1"], why, no)?;
    let both = "\"a\" => \"1\"\n\"b\" => \"2\"\n";
    expect_over(&rt, follows, &["scan"], both, done)?;
    expect_over(&rt, later, &["scan"], a, done)?;
    let why = "refused: Corrupt 5 24 Checksum\n";
    expect_over(&rt, later, &["scan", "--mode=0"], why, no)
}

#[test]
fn calls_may_fail_in_a_scan(rt: HostRuntime) -> Result<(), Fail> {
    let files = [
        ("CURRENT", b"MANIFEST-000002\n".as_slice()),
        ("MANIFEST-000002", FIRST),
        ("000003.log", TWO_RECORDS.as_slice()),
    ];
    for (failing, lines, wanted) in [
        ((Some(1), None), "fault: disk\n", Status::DiskFault),
        ((None, Some(2)), "\"a\" => \"1\"\n", Status::SinkFault),
    ] {
        let (status, _, out) = outcome(rt.alloc(), &files, failing, &["scan"])?;
        assert_eq!(rt; out.taken(), lines.as_bytes(), "failing at {failing:?}");
        assert_eq!(rt; status, wanted);
    }
    Ok(())
}

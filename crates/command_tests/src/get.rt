//! Runs of `get` over files in memory. Checksums are computed elsewhere.
use crate::run::expect;
use crate::scan::expect_over;
use rk_ldb::Status;
use std::test::Fail;

/// A record of a batch at sequence number 1: a put of `k`, and two merges.
const MERGES: &[u8] =
    b"mR\xd3^\x1b\0\x01\x01\0\0\0\0\0\0\0\x03\0\0\0\x01\x01k\x01x\x02\x01k\x01y\x02\x01k\x01z";

/// The manifest of two tables at level 1. The first ends at a range deletion's end, which is the next one's key.
const TWO_TABLES: &[u8] =
    b"Y-/\xc9S\0\x01\x01\x1aleveldb.BytewiseComparator\x02\x03\x03\x06\x04\x0a\
    \x07\x01\x04\xa2\x01\x09b\x0f\x0a\0\0\0\0\0\0\x09c\x0f\xff\xff\xff\xff\xff\xff\xff\
    \x07\x01\x05r\x09c\x01\0\0\0\0\0\0\0\x09c\x01\0\0\0\0\0\0\0";

/// A table that puts `b` at sequence number 9 and deletes the keys from `b` up to `d` at 10.
const DELETES_A_RANGE: &[u8] = b"\0\x09\x01b\x01\x09\0\0\0\0\0\0x\0\0\0\0\x01\0\0\0\0\xebp\x04.\
    \0\x09\x01b\x0f\x0a\0\0\0\0\0\0d\0\0\0\0\x01\0\0\0\0\x09\x11\xb0\x8a\
    \0\x11\x02rocksdb.range_del\x1a\x15\0\0\0\0\x01\0\0\0\x002\xf9\xda}\
    \0\x09\x02b\x01\x09\0\0\0\0\0\0\0\x15\0\0\0\0\x01\0\0\0\0\x1e\x06\x1f\xb24\x1eW\x16\
    \0\0\0\0\0\0\0\0\0\0\0\0\0\0\0\0\0\0\0\0\0\0\0\0\0\0\0\0\0\0\0\0\0\0\0\0W\xfb\x80\x8b$uG\xdb";

/// A table that puts `c` at sequence number 0.
const PUTS_C: &[u8] = b"\0\x09\x01c\x01\0\0\0\0\0\0\0y\0\0\0\0\x01\0\0\0\0\xd4\x1f\x11\xe6\
    \0\0\0\0\x01\0\0\0\0\xc0\xf2\xa1\xb0\0\x09\x02c\x01\0\0\0\0\0\0\0\0\x15\0\0\0\0\
    \x01\0\0\0\0[\x88\x83h\x1a\x08'\x16\0\0\0\0\0\0\0\0\0\0\0\0\0\0\0\0\0\0\0\0\0\0\
    \0\0\0\0\0\0\0\0\0\0\0\0\0\0W\xfb\x80\x8b$uG\xdb";

#[test]
fn a_range_deletion_ends_with_its_table(rt: HostRuntime) -> Result<(), Fail> {
    let files = [
        ("CURRENT", b"MANIFEST-000002\n".as_slice()),
        ("MANIFEST-000002", TWO_TABLES),
        ("000004.sst", DELETES_A_RANGE),
        ("000005.sst", PUTS_C),
    ];
    let deleted = Status::NotFound;
    expect(&rt, &files, &["get", "b"], "not found\n", deleted)?;
    expect(&rt, &files, &["get", "c"], "\"y\"\n", Status::Done)?;
    expect(&rt, &files, &["scan"], "\"c\" => \"y\"\n", Status::Done)
}

#[test]
fn merges_are_shown_and_not_combined(rt: HostRuntime) -> Result<(), Fail> {
    let logs = [("000003.log", MERGES), ("000004.log", b"".as_slice())];
    let line = "merge \"z\" \"y\" base \"x\"\n";
    expect_over(&rt, logs, &["get", "k"], line, Status::Done)
}

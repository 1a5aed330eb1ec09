//! Runs with `--best-efforts` over files in memory. Checksums are computed elsewhere.
use crate::run::expect;
use crate::scan::FIRST;
use crate::sst::ONE_RECORD;
use rk_ldb::Status;
use std::process::Abort;
use std::test::Fail;

/// The edit of a new database, and one that adds the table of one record.
const FIRST_AND_TABLE: &[u8] =
    b"\x91\x8d\x74\x51\x22\0\x01\x01\x1aleveldb.BytewiseComparator\x02\x03\x03\x04\x04\0\
    \xd0\xc9\x5c\xc8\x18\0\x01\x07\0\x04\x72\x09a\x01\x01\0\0\0\0\0\0\x09a\x01\x01\0\0\0\0\0\0";

/// Family 1 is added with table 4, is dropped, and is added again with table 5; and the last two in one group.
const ONE: &[u8] =
    b"\x58\x8b\x39\x93\x21\0\x01\xc8\x01\x01\xc9\x01\x03one\x07\0\x04\x72\x09a\x01\x01\0\0\0\0\0\0\x09a\x01\x01\0\0\0\0\0\0";

const DROP: &[u8] = b"\xa1\x0b\xbf\x51\x05\0\x01\xc8\x01\x01\xca\x01";

const TWO: &[u8] =
    b"\x2e\x9e\x61\xdb\x21\0\x01\xc8\x01\x01\xc9\x01\x03two\x07\0\x05\x72\x09a\x01\x01\0\0\0\0\0\0\x09a\x01\x01\0\0\0\0\0\0";

const DROP_AND: &[u8] = b"\x40\xf0\xcd\x14\x08\0\x01\xac\x02\x01\xc8\x01\x01\xca\x01";

const AND_TWO: &[u8] =
    b"\x3d\xee\x53\x6a\x24\0\x01\xac\x02\0\xc8\x01\x01\xc9\x01\x03two\x07\0\x05\x72\x09a\x01\x01\0\0\0\0\0\0\x09a\x01\x01\0\0\0\0\0\0";

#[test]
fn the_greatest_usable_manifest_is_taken(rt: HostRuntime) -> Result<(), Fail> {
    let words = ["check", "--best-efforts"];
    let none = "refused: NoUsableManifest\n";
    expect(&rt, &[], &words, none, Status::Refused)?;
    let files = [
        ("MANIFEST-000002", FIRST),
        ("MANIFEST-000003", b"".as_slice()),
        ("CURRENT", b"MANIFEST-000003\n"),
    ];
    let lines = "manifest 2 units 1\npoint 0 1\nok: families 1 files 0 records 0\n";
    expect(&rt, &files, &words, lines, Status::Done)
}

#[test]
fn a_table_counts_where_it_is_whole(rt: HostRuntime) -> Result<(), Fail> {
    let words = ["check", "--best-efforts"];
    let (table, front) = (ONE_RECORD.as_slice(), &ONE_RECORD[..113]);
    for (table, lines) in [
        (
            table,
            "manifest 2 units 2\npoint 0 2\nok: families 1 files 1 records 1\n",
        ),
        (
            front,
            "manifest 2 units 2\npoint 0 1\nok: families 1 files 0 records 0\n",
        ),
    ] {
        let files = [("MANIFEST-000002", FIRST_AND_TABLE), ("000004.sst", table)];
        expect(&rt, &files, &words, lines, Status::Done)?;
    }
    Ok(())
}

#[test]
fn keys_are_shown_as_far_as_tables_are_whole(rt: HostRuntime) -> Result<(), Fail> {
    let files = [
        ("MANIFEST-000002", FIRST_AND_TABLE),
        ("000004.sst", ONE_RECORD.as_slice()),
    ];
    let (row, value) = ("\"a\" => \"x\"\n", "\"x\"\n");
    expect(&rt, &files, &["scan", "--best-efforts"], row, Status::Done)?;
    expect(
        &rt,
        &files,
        &["get", "a", "--best-efforts"],
        value,
        Status::Done,
    )?;
    let absent = "not found\n";
    expect(
        &rt,
        &files[..1],
        &["get", "a", "--best-efforts"],
        absent,
        Status::NotFound,
    )
}

/// The manifest of these records is opened as far as table 4 goes, to these lines of `check` and these rows of family
/// `two`.
fn expect_two<R: Abort + AllocGlobal>(
    rt: &R,
    records: &[&[u8]],
    lines: &str,
    rows: &str,
) -> Result<(), Fail> {
    let mut manifest = Vec::new(rt.alloc());
    for record in records {
        manifest.extend_from_slice(record)?;
    }
    let files = [
        ("MANIFEST-000002", manifest.as_slice()),
        ("000004.sst", ONE_RECORD.as_slice()),
    ];
    let check = ["check", "--best-efforts"];
    let scan = ["scan", "--family=two", "--best-efforts"];
    expect(rt, &files, &check, lines, Status::Done)?;
    expect(rt, &files, &scan, rows, Status::Done)
}

#[test]
fn a_family_that_is_added_again_is_another_one(rt: HostRuntime) -> Result<(), Fail> {
    // Between the drop and the second family there is none, which is whole.
    let lines = "manifest 2 units 4\npoint 0 4\npoint 1 3\nok: families 2 files 0 records 0\n";
    expect_two(&rt, &[FIRST, ONE, DROP, TWO], lines, "")?;
    // Before the group there is the first family's table.
    let lines = "manifest 2 units 3\npoint 0 2\npoint 1 2\nok: families 2 files 1 records 1\n";
    let row = "\"a\" => \"x\"\n";
    expect_two(&rt, &[FIRST, ONE, DROP_AND, AND_TWO], lines, row)
}

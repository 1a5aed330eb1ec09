//! Runs of `sst` over a table in memory, which was made elsewhere from the format's description.
use crate::run::expect;
use rk_ldb::Status;
use std::process::Abort;
use std::test::Fail;

/// One record, `a` = `x` at sequence number 1.
pub(crate) const ONE_RECORD: [u8; 114] =
    *b"\0\x09\x01a\x01\x01\0\0\0\0\0\0x\0\0\0\0\x01\0\0\0\0\x84\xDD\x88t\0\0\0\0\x01\0\0\0\0\xC0\xF2\xA1\xB0\0\x09\x02a\x01\x01\0\0\0\0\0\0\0\x15\0\0\0\0\x01\0\0\0\06I%\xBF\x1A\x08'\x16\0\0\0\0\0\0\0\0\0\0\0\0\0\0\0\0\0\0\0\0\0\0\0\0\0\0\0\0\0\0\0\0\0\0\0\0W\xFB\x80\x8B$uG\xDB";

/// Runs the command over a directory with this table, and compares its lines and the status.
fn expect_lines<R: Abort + AllocGlobal>(
    rt: &R,
    table: &[u8],
    words: &[&str],
    lines: &str,
    wanted: Status,
) -> Result<(), Fail> {
    expect(rt, &[("000004.sst", table)], words, lines, wanted)
}

#[test]
fn a_table_is_shown(rt: HostRuntime) -> Result<(), Fail> {
    let table = ONE_RECORD.as_slice();
    let done = Status::Done;
    let good = "good: family 0 entries 1 ranges 0\n";
    expect_lines(&rt, table, &["sst", "4", "check"], good, done)?;
    let entry = "\"a\"@1:1 => \"x\"\n";
    expect_lines(&rt, table, &["sst", "4", "scan"], entry, done)?;
    let entry = "0x61@1:1 => 0x78\n";
    expect_lines(&rt, table, &["sst", "4", "scan", "--hex"], entry, done)?;
    expect_lines(&rt, table, &["sst", "4", "properties"], "", done)
}

#[test]
fn what_is_no_good_table_is_refused(rt: HostRuntime) -> Result<(), Fail> {
    let check = ["sst", "4", "check"];
    let none = Status::Refused;
    let line = "refused: NoTable 5\n";
    expect_lines(&rt, &ONE_RECORD, &["sst", "5", "check"], line, none)?;
    let mut changed = ONE_RECORD;
    changed[12] = b'y';
    let line = "refused: DamagedTable 4 Checksum 0\n";
    expect_lines(&rt, &changed, &check, line, none)?;
    let line = "refused: DamagedTable 4 BadMagic 65\n";
    expect_lines(&rt, &ONE_RECORD[..113], &check, line, none)?;
    let line = "refused: DamagedTable 4 FooterShort 0\n";
    expect_lines(&rt, &ONE_RECORD[..47], &check, line, none)
}

//! Runs of `check` over files in memory.
use crate::run::expect;
use crate::scan::FIRST;
use rk_ldb::Status;
use std::test::Fail;

#[test]
fn what_is_opened_is_counted(rt: HostRuntime) -> Result<(), Fail> {
    let none = "refused: NoCurrent\n";
    expect(&rt, &[], &["check"], none, Status::Refused)?;
    let files = [
        ("CURRENT", b"MANIFEST-000002\n".as_slice()),
        ("MANIFEST-000002", FIRST),
    ];
    let line = "ok: families 1 files 0 records 0\n";
    expect(&rt, &files, &["check"], line, Status::Done)
}

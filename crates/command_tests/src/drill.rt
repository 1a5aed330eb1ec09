//! Runs of `drill`, which looks at no file of the disk that it is given.
use crate::run::expect;
use rk_ldb::Status;
use std::test::Fail;

#[test]
fn each_way_of_opening_has_its_line(rt: HostRuntime) -> Result<(), Fail> {
    let lines =
        "drill 3\nmode 0: records 8 keys 5\nmode 1: refused: Corrupt 5 76 Torn\nmode 2: records 5 keys 5\nmode 3: records 8 keys 5\nbest-efforts: records 3 keys 3\n";
    let files = [("CURRENT", b"MANIFEST-000009\n".as_slice())];
    expect(&rt, &files, &["drill", "3"], lines, Status::Done)
}

// What is expected is read off the names that RocksDB gives its files.
use rk_names::*;
use std::test::Fail;

#[test]
fn names_are_read_and_written(rt: HostRuntime) -> Result<(), Fail> {
    let cases = [
        ("CURRENT", FileName::Current),
        ("MANIFEST-000002", FileName::Manifest(2)),
        ("000003.log", FileName::Log(3)),
        ("000012.sst", FileName::Table(12)),
        ("1234567.dbtmp", FileName::Temp(1_234_567)),
        ("18446744073709551615.log", FileName::Log(u64::MAX)),
    ];
    for (text, name) in cases {
        assert_eq!(rt; read_name(text), name, "of {text}");
        let written = write_name(rt.alloc(), &name)?;
        assert_eq!(rt; written.as_str(), text);
    }
    Ok(())
}

#[test]
fn only_exact_names_are_read(rt: HostRuntime) {
    let others = [
        "12.sst",
        "0000012.sst",
        "+00012.sst",
        "MANIFEST-12",
        "18446744073709551616.log",
        "000012.SST",
        "LOCK",
        "OPTIONS-000005",
        "",
    ];
    for text in others {
        assert_eq!(rt; read_name(text), FileName::Other, "of {text}");
    }
    assert_eq!(rt; read_name("lost/000012.sst"), FileName::Lost);
}

#[test]
fn current_names_a_manifest(rt: HostRuntime) {
    let cases: [(&[u8], Result<u64, CurrentFault>); 5] = [
        (b"MANIFEST-000002\n", Ok(2)),
        (b"MANIFEST-000002", Err(CurrentFault::NoNewline)),
        (b"MANIFEST-000002\n\n", Err(CurrentFault::Trailing)),
        (b"\n\xFF", Err(CurrentFault::Trailing)),
        (b"000002.log\n", Err(CurrentFault::NotManifest)),
    ];
    for (bytes, number) in cases {
        assert_eq!(rt; read_current(bytes), number, "of {bytes:?}");
    }
}

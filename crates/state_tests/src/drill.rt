// What is expected was made from the formats' descriptions by a program of another language.
use rk_gen::make_directory;
use rk_sum::crc32c;
use std::test::Fail;

// The table of two keys, of 471 bytes.
const TABLE: &[u8] =
    b"\0\x10\x08\0\0\0\0\0\0\0\x01\x01\x01\0\0\0\0\0\0\0\0\0\0\x9E7y\xB1\x07\x09\x08\x02\x01\x02\0\0\0\0\0\0\0\0\0\x01<n\xF3b\0\0\0\0\x01\0\0\0\0\x7F\x01\xEC1\0$\x04rocksdb.block.based.table.index.type\0\0\0\0\0\x18\x01rocksdb.column.family.id\0\0\x1A\x07rocksdb.column.family.namedefault\0\x12\x1Arocksdb.comparatorleveldb.BytewiseComparator\0\x1D\x01rocksdb.index.key.is.user.key\0\0$\x01rocksdb.index.value.is.delta.encoded\0\0\x13\x01rocksdb.num.entries\x02\0\0\0\0+\0\0\0G\0\0\0k\0\0\0\x9A\0\0\0\xBB\0\0\0\xE3\0\0\0\x07\0\0\0\0\xA5\xE9?\x9F\0\x12\x03rocksdb.properties<\x9A\x02\0\0\0\0\x01\0\0\0\0\xD5!w\xEC\0\x10\x02\0\0\0\0\0\0\0\x02\x01\x02\0\0\0\0\0\0\07\0\0\0\0\x01\0\0\0\0'\xE2\x04G\x01\xDB\x02 \x80\x03\x1D\0\0\0\0\0\0\0\0\0\0\0\0\0\0\0\0\0\0\0\0\0\0\0\0\0\0\0\0\0\0\0\0\0\0\x02\0\0\0\xF7\xCF\xF4\x85\xB7A\xE2\x88";

// The log of the puts at sequence numbers 3 and 4, without its last byte, C4.
const TORN: &[u8] =
    b"G\xCB\xB4\x18\x1F\0\x01\x03\0\0\0\0\0\0\0\x01\0\0\0\x01\x08\0\0\0\0\0\0\0\x03\x08\0\0\0\x01\xDA\xA6m\x13yxy)\x1F\0\x01\x04\0\0\0\0\0\0\0\x01\0\0\0\x01\x08\0\0\0\0\0\0\0\x04\x08\0\0\0\x02x\xDD\xE6";

// The log of the puts at sequence numbers 5 and 6, under the keys with the numbers 1 and 2.
const LATER: &[u8] =
    b"\xCF\xA2P%\x1F\0\x01\x05\0\0\0\0\0\0\0\x01\0\0\0\x01\x08\0\0\0\0\0\0\0\x01\x08\0\0\0\x03\x17\x15`u\x08\x9E\xF5\xB0\x1F\0\x01\x06\0\0\0\0\0\0\0\x01\0\0\0\x01\x08\0\0\0\0\0\0\0\x02\x08\0\0\0\x03\xB5L\xDA&";

// The manifest, which lists the table.
const MANIFEST: &[u8] =
    b"\xEF]\\\xD3L\0\x01\x01\x1Aleveldb.BytewiseComparator\x02\x05\x03\x07\x04\x02g\0\x04\xD7\x03\x10\0\0\0\0\0\0\0\x01\x01\x01\0\0\0\0\0\0\x10\0\0\0\0\0\0\0\x02\x01\x02\0\0\0\0\0\0\x01\x02\x01";

#[test]
fn a_directory_of_two_keys_is_made(rt: HostRuntime) -> Result<(), Fail> {
    let disk = make_directory(rt.alloc(), 2)?;
    for (name, bytes) in [
        ("000004.sst", TABLE),
        ("000005.log", TORN),
        ("000006.log", LATER),
        ("CURRENT", b"MANIFEST-000002\n".as_slice()),
        ("MANIFEST-000002", MANIFEST),
    ] {
        assert_eq!(rt; disk.file(name), Some(bytes), "{name}");
    }
    Ok(())
}

// The log's last batch begins at byte 37,969, behind one that is cut in two at the end of the first block.
#[test]
fn a_log_goes_on_in_the_next_block(rt: HostRuntime) -> Result<(), Fail> {
    let disk = make_directory(rt.alloc(), 1000)?;
    let len = disk.file("000005.log").map(|log| log.len());
    assert_eq!(rt; len, Some(37_969 + 38 - 1));
    Ok(())
}

// A table of two data blocks, of which the first is closed when it has 4,096 bytes.
#[test]
fn a_table_goes_on_in_the_next_block(rt: HostRuntime) -> Result<(), Fail> {
    let disk = make_directory(rt.alloc(), 300)?;
    let Some(table) = disk.file("000004.sst") else {
        return Err(Fail::new("there is no table"));
    };
    assert_eq!(rt; table.len(), 6680);
    assert_eq!(rt; crc32c(table), 0xA02C_AE34);
    Ok(())
}

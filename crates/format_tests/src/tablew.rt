// Both tables were made by a program of another language, from the format's description.
use rk_ikey::{Kind, ParsedKey};
use rk_sum::crc32c;
use rk_tablew::TableWriter;
use std::test::Fail;

// One record, of the key 1 in eight bytes, at sequence number 1.
const ONE_RECORD: &[u8] =
    b"\0\x10\x08\0\0\0\0\0\0\0\x01\x01\x01\0\0\0\0\0\0\0\0\0\0\x9E7y\xB1\0\0\0\0\x01\0\0\0\0\xCB(NJ\0$\x04rocksdb.block.based.table.index.type\0\0\0\0\0\x18\x01rocksdb.column.family.id\0\0\x1A\x07rocksdb.column.family.namedefault\0\x12\x1Arocksdb.comparatorleveldb.BytewiseComparator\0\x1D\x01rocksdb.index.key.is.user.key\0\0$\x01rocksdb.index.value.is.delta.encoded\0\0\x13\x01rocksdb.num.entries\x01\0\0\0\0+\0\0\0G\0\0\0k\0\0\0\x9A\0\0\0\xBB\0\0\0\xE3\0\0\0\x07\0\0\0\0\xCE\xE3\xDEf\0\x12\x03rocksdb.properties(\x9A\x02\0\0\0\0\x01\0\0\0\0\xF8y\xD6\xFA\0\x10\x02\0\0\0\0\0\0\0\x01\x01\x01\0\0\0\0\0\0\0#\0\0\0\0\x01\0\0\0\0\xD8$E\x81\x01\xC7\x02 \xEC\x02\x1D\0\0\0\0\0\0\0\0\0\0\0\0\0\0\0\0\0\0\0\0\0\0\0\0\0\0\0\0\0\0\0\0\0\0\x02\0\0\0\xF7\xCF\xF4\x85\xB7A\xE2\x88";

#[test]
fn a_table_of_one_record(rt: HostRuntime) -> Result<(), Fail> {
    let mut writer = TableWriter::new(rt.alloc());
    let key = ParsedKey {
        user: b"\0\0\0\0\0\0\0\x01",
        sequence: 1,
        kind: Kind::Value,
    };
    writer.add(&key, b"\0\0\0\0\x9E\x37\x79\xB1")?;
    let table = writer.finish(0, b"default")?;
    assert_eq!(rt; table.as_slice(), ONE_RECORD);
    Ok(())
}

#[test]
fn a_table_with_a_range_deletion_and_sizes(rt: HostRuntime) -> Result<(), Fail> {
    let mut writer = TableWriter::new(rt.alloc());
    let key = ParsedKey {
        user: b"a",
        sequence: 5,
        kind: Kind::Value,
    };
    writer.add(&key, b"one")?;
    writer.add_range(b"c", b"d", 3)?;
    let table = writer.finish_with_sizes(300, b"cf")?;
    assert_eq!(rt; table.as_slice().len(), 538);
    assert_eq!(rt; crc32c(table.as_slice()), 0x8A83_128A);
    Ok(())
}

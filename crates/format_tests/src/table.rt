// Both tables were made by a program of another language, from the format's description.
ghost use Rattle.std.specs.Prelude.{◌≤◌};

use rk_bytes::model::Kind;
use rk_bytes::{Bytes, Memory};
use rk_table::*;
use std::alloc::Global;
use std::test::Fail;

// One record, `a` = `x` at sequence 1: the data block at 0, the metaindex at 26, the index at 39, the footer at 66.
const ONE_RECORD: [u8; 114] =
    *b"\0\x09\x01a\x01\x01\0\0\0\0\0\0x\0\0\0\0\x01\0\0\0\0\x84\xDD\x88t\0\0\0\0\x01\0\0\0\0\xC0\xF2\xA1\xB0\0\x09\x02a\x01\x01\0\0\0\0\0\0\0\x15\0\0\0\0\x01\0\0\0\06I%\xBF\x1A\x08'\x16\0\0\0\0\0\0\0\0\0\0\0\0\0\0\0\0\0\0\0\0\0\0\0\0\0\0\0\0\0\0\0\0\0\0\0\0W\xFB\x80\x8B$uG\xDB";

// A table of family 300, `cf`. Its separators are user keys, `c` and `d`. The records are `b` at 9 = `one`, a
// deletion of `b` at 3, a merge of `two` into `bc` at 4, and a single deletion of `d` at 7, which has a block
// of its own. The range deletions are `a` to `c` at 5 and `c` to `z` at 12.
const FIRST_BLOCK: &[u8] =
    b"\0\x09\x03b\x01\x09\0\0\0\0\0\0one\x01\x08\0\0\x03\0\0\0\0\0\0\x01\x09\x03c\x02\x04\0\0\0\0\0\0two\0\0\0\0\x01\0\0\0\0\x0CQ<&";

const SECOND_BLOCK: &[u8] = b"\0\x09\0d\x07\x07\0\0\0\0\0\0\0\0\0\0\x01\0\0\0\0kK\x89\x0E";

const RANGES: &[u8] =
    b"\0\x09\x01a\x0F\x05\0\0\0\0\0\0c\0\x09\x01c\x0F\x0C\0\0\0\0\0\0z\0\0\0\0\x0D\0\0\0\x02\0\0\0\0\x07\x02Q\xF0";

const PROPERTIES: &[u8] =
    b"\0\x18\x02rocksdb.column.family.id\xAC\x02\0\x1A\x02rocksdb.column.family.namecf\0\x12\x1Arocksdb.comparatorleveldb.BytewiseComparator\0\x1D\x01rocksdb.index.key.is.user.key\x01\0\x13\x01rocksdb.num.entries\x04\0\0\0\0\x1D\0\0\0<\0\0\0k\0\0\0\x8C\0\0\0\x05\0\0\0\0\xE01]\x17";

const METAINDEX: &[u8] =
    b"\0\x12\x03rocksdb.propertiesz\xBB\x01\0\x11\x02rocksdb.range_delO&\0\0\0\0\x18\0\0\0\x02\0\0\0\0\x88\x94\xF4\x16";

const INDEX: &[u8] = b"\0\x01\x02c\01\0\x01\x02d6\x14\0\0\0\0\x06\0\0\0\x02\0\0\0\0\xD7\x89E\xF7";

const FOOTER: &[u8] =
    b"\x01\xBA\x02:\xF9\x02\x18\0\0\0\0\0\0\0\0\0\0\0\0\0\0\0\0\0\0\0\0\0\0\0\0\0\0\0\0\0\0\0\0\0\0\x05\0\0\0\xF7\xCF\xF4\x85\xB7A\xE2\x88";

// The status of these bytes in words.
fn told(status: &Status) -> (u8, Option<TableWhy>, u64) {
    match status {
        Status::Good(table) => (0, None, table.entries),
        Status::Damaged { why, place } => (1, Some(*why), *place),
        Status::Unsupported(_) => (2, None, 0),
    }
}

#[test]
fn the_first_fault_of_a_table_is_told(rt: HostRuntime) -> Result<(), Fail> {
    let mut changed = ONE_RECORD;
    changed[12] = b'y';
    for (bytes, wanted) in [
        (&ONE_RECORD[..], (0, None, 1)),
        (&changed[..], (1, Some(TableWhy::Checksum), 0)),
        (&ONE_RECORD[..113], (1, Some(TableWhy::BadMagic), 65)),
        (&ONE_RECORD[..47], (1, Some(TableWhy::FooterShort), 0)),
    ] {
        let status = table_status(rt.alloc(), bytes)?;
        assert_eq!(rt; told(&status), wanted);
    }
    Ok(())
}

// Whether the status of the bytes is this damage at this place.
fn is_damaged(alloc: Global, bytes: &[u8], why: TableWhy, place: u64) -> Result<bool, Memory> {
    let status = table_status(alloc, bytes)?;
    Ok(told(&status) == (1, Some(why), place))
}

// Whether the status of a front of the first table is that it has no footer.
fn front_is_told(alloc: Global, len: u8) -> Result<bool, Memory>
    requires { len ≤ 114 }
{
    let bytes = &ONE_RECORD[..usize::from(len)];
    if len < 48 {
        is_damaged(alloc, bytes, TableWhy::FooterShort, 0)
    } else {
        is_damaged(alloc, bytes, TableWhy::BadMagic, u64::from(len - 48))
    }
}

#[test]
fn every_front_of_a_table_is_told(rt: HostRuntime) -> Result<(), Fail> {
    for len in 0..114 {
        assert!(rt; front_is_told(rt.alloc(), len)?);
    }
    Ok(())
}

// Whether the status of the first table with these bits of one of its bytes changed is that the checksum of the
// block at this place is wrong.
fn change_is_told(alloc: Global, at: usize, bits: u8, place: u64) -> Result<bool, Memory> {
    let mut bytes = ONE_RECORD;
    if let Some(byte) = bytes.get_mut(at) {
        *byte ^= bits;
    }
    is_damaged(alloc, &bytes, TableWhy::Checksum, place)
}

// Whether that is so of each bit of the byte.
fn changes_are_told(alloc: Global, at: usize, place: u64) -> Result<bool, Memory> {
    for bits in [1, 2, 4, 8, 16, 32, 64, 128] {
        if !change_is_told(alloc, at, bits, place)? {
            return Ok(false);
        }
    }
    Ok(true)
}

#[test]
fn every_changed_bit_of_a_block_is_told(rt: HostRuntime) -> Result<(), Fail> {
    for at in 0..66 {
        let place = if at < 26 {
            0
        } else if at < 39 {
            26
        } else {
            39
        };
        assert!(rt; changes_are_told(rt.alloc(), at, place)?);
    }
    Ok(())
}

// The bytes of the second table.
fn second_table(alloc: Global) -> Result<Bytes, Memory> {
    let mut bytes = Bytes::new(alloc);
    bytes.append_both(FIRST_BLOCK, SECOND_BLOCK)?;
    bytes.append_both(RANGES, PROPERTIES)?;
    bytes.append_both(METAINDEX, INDEX)?;
    bytes.append(FOOTER)?;
    Ok(bytes)
}

// Whether there is a key, and this one.
fn is_key(key: &Option<Bytes>, wanted: &[u8]) -> bool {
    match key {
        Some(key) => key.as_slice() == wanted,
        None => false,
    }
}

#[test]
fn properties_and_range_deletions_are_known(rt: HostRuntime) -> Result<(), Fail> {
    let bytes = second_table(rt.alloc())?;
    match table_status(rt.alloc(), bytes.as_slice())? {
        Status::Good(table) => {
            assert_eq!(rt; table.family, 300);
            assert_eq!(rt; table.family_name.as_slice(), b"cf".as_slice());
            assert_eq!(rt; table.entries, 4);
            assert_eq!(rt; table.ranges.as_slice().len(), 2);
            assert_eq!(rt; table.properties.as_slice().len(), 5);
            assert_eq!(rt; table.index.as_slice().len(), 2);
            assert!(rt; table.user_keys);
            assert_eq!(rt; table.top, 12);
            assert_eq!(rt; table.start, 406);
            assert!(rt; is_key(&table.smallest, b"a\x0F\x05\0\0\0\0\0\0"));
            assert!(rt; is_key(&table.largest, b"z\x0F\xFF\xFF\xFF\xFF\xFF\xFF\xFF"));
        }
        _ => return Err(Fail::new("the table isn't good")),
    }
    Ok(())
}

#[test]
fn the_records_of_a_block_are_given(rt: HostRuntime) -> Result<(), Fail> {
    let bytes = second_table(rt.alloc())?;
    let Status::Good(table) = table_status(rt.alloc(), bytes.as_slice())? else {
        return Err(Fail::new("the table isn't good"));
    };
    if table.index.as_slice().len() != 2 {
        return Err(Fail::new("the index hasn't two entries"));
    }
    match block_records(rt.alloc(), &table, 0, None, &FIRST_BLOCK[..49]) {
        Ok(records) => match records.as_slice() {
            [one, two, three] => {
                assert_eq!(rt; one.family, 300);
                assert_eq!(rt; one.key.as_slice(), b"b".as_slice());
                assert_eq!(rt; one.sequence, 9);
                assert_eq!(rt; one.value.as_slice(), b"one".as_slice());
                assert_eq!(rt; two.kind, Kind::Deletion);
                assert_eq!(rt; three.key.as_slice(), b"bc".as_slice());
                assert_eq!(rt; three.kind, Kind::Merge);
            }
            _ => return Err(Fail::new("there aren't three records")),
        },
        Err(_) => return Err(Fail::new("the block isn't read")),
    }
    let damage = WalkErr::Damaged {
        why: TableWhy::BadOrder,
        place: 54,
    };
    let after = b"d\x07\x07\0\0\0\0\0\0";
    match block_records(rt.alloc(), &table, 1, Some(after), &SECOND_BLOCK[..20]) {
        Ok(_) => Err(Fail::new("a key stands twice")),
        Err(error) => {
            assert_eq!(rt; error, damage);
            Ok(())
        }
    }
}

#[test]
fn records_are_handed_out_in_order(rt: HostRuntime) -> Result<(), Fail> {
    let bytes = second_table(rt.alloc())?;
    let Status::Good(table) = table_status(rt.alloc(), bytes.as_slice())? else {
        return Err(Fail::new("the table isn't good"));
    };
    let mut records = TableIter::new(rt.alloc(), bytes.as_slice(), &table);
    for (key, sequence) in [(b"b".as_slice(), 9), (b"b", 3), (b"bc", 4), (b"d", 7)] {
        let Some(record) = records.next_record()? else {
            return Err(Fail::new("a record is missing"));
        };
        assert_eq!(rt; record.key.as_slice(), key);
        assert_eq!(rt; record.sequence, sequence);
    }
    assert!(rt; records.next_record()?.is_none());
    Ok(())
}

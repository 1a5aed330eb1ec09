// Blocks, footers and sums were made by a program of another language, from the format's description.
use rk_block::BlockFault;
use rk_meta::*;
use std::test::Fail;

// The metaindex at 1000 with 30 bytes, and the index at 1035 with 200.
const LEGACY: [u8; 48] =
    *b"\xE8\x07\x1E\x8B\x08\xC8\x01\0\0\0\0\0\0\0\0\0\0\0\0\0\0\0\0\0\0\0\0\0\0\0\0\0\0\0\0\0\0\0\0\0\x57\xFB\x80\x8B\x24\x75\x47\xDB";

// The same handles, a checksum kind before them and a version behind them, after two other bytes.
const NEWER: [u8; 55] =
    *b"..\x01\xE8\x07\x1E\x8B\x08\xC8\x01\0\0\0\0\0\0\0\0\0\0\0\0\0\0\0\0\0\0\0\0\0\0\0\0\0\0\0\0\0\0\0\0\0\x05\0\0\0\xF7\xCF\xF4\x85\xB7\x41\xE2\x88";

fn footer(version: u32, sum: SumKind, start: u64) -> Footer {
    Footer {
        version,
        sum,
        metaindex: Handle {
            offset: 1000,
            size: 30,
        },
        index: Handle {
            offset: 1035,
            size: 200,
        },
        start,
    }
}

#[test]
fn footers_are_read(rt: HostRuntime) {
    assert_eq!(rt; read_footer(&LEGACY), Ok(footer(0, SumKind::Crc32c, 0)));
    for (kind, sum) in [
        (0, SumKind::NoSum),
        (1, SumKind::Crc32c),
        (2, SumKind::Xxh32),
        (3, SumKind::Xxh64),
    ] {
        let mut bytes = NEWER;
        bytes[2] = kind;
        assert_eq!(rt; read_footer(&bytes), Ok(footer(5, sum, 2)));
    }
}

#[test]
fn the_first_fault_of_a_footer_is_told(rt: HostRuntime) {
    for (kind, version, fault) in [
        (1, 0, FooterFault::UnsupportedVersion(0)),
        (4, 6, FooterFault::UnsupportedVersion(6)),
        (4, 1, FooterFault::UnsupportedChecksum(4)),
    ] {
        let mut bytes = NEWER;
        bytes[2] = kind;
        bytes[43] = version;
        assert_eq!(rt; read_footer(&bytes), Err(fault));
    }
    let mut unspelled = LEGACY;
    for place in 3..40 {
        unspelled[place] = 0xFF;
    }
    assert_eq!(rt; read_footer(&unspelled), Err(FooterFault::BadHandle));
    assert_eq!(rt; read_footer(&LEGACY[1..]), Err(FooterFault::FooterShort));
    assert_eq!(rt; read_footer(&NEWER[3..]), Err(FooterFault::FooterShort));
    assert_eq!(rt; read_footer(&[0; 60]), Err(FooterFault::BadMagic));
}

#[test]
fn a_block_is_checked_by_its_trailer(rt: HostRuntime) {
    let whole = b".block\0\x2D\xDB\xDF\xDE".as_slice();
    let compressed = b".block\x07\x99\x44\x0E\x98".as_slice();
    let wrong = b".block\x07\x2D\xDB\xDF\xDE".as_slice();
    for (bytes, size, sum, answer) in [
        (whole, 5, SumKind::Crc32c, Ok(b"block".as_slice())),
        (whole, 5, SumKind::Xxh32, Err(TrailerFault::Checksum)),
        (whole, 6, SumKind::NoSum, Err(TrailerFault::OutOfFile)),
        (
            whole,
            u64::MAX,
            SumKind::NoSum,
            Err(TrailerFault::OutOfFile),
        ),
        (wrong, 5, SumKind::Crc32c, Err(TrailerFault::Checksum)),
        (wrong, 5, SumKind::NoSum, Err(TrailerFault::Compressed(7))),
        (
            compressed,
            5,
            SumKind::Crc32c,
            Err(TrailerFault::Compressed(7)),
        ),
    ] {
        let handle = Handle { offset: 1, size };
        assert_eq!(rt; checked_block(bytes, handle, sum), answer);
    }
}

#[test]
fn an_index_is_read_in_both_forms(rt: HostRuntime) -> Result<(), Fail> {
    let whole = b"\0\x05\x02apple\0d\x02\x05\x02ricotiZ\0\0\0\0\x01\0\0\0".as_slice();
    let delta = b"\0\x05apple\0d\x02\x05ricot\x13\0\0\0\0\x01\0\0\0".as_slice();
    for (block, is_delta) in [(whole, false), (delta, true)] {
        let Ok(index) = read_index(rt.alloc(), block, is_delta) else {
            return Err(Fail::new("the index doesn't read"));
        };
        let [apple, apricot] = index.as_slice() else {
            return Err(Fail::new("there aren't two entries"));
        };
        assert_eq!(rt; apple.separator.as_slice(), b"apple".as_slice());
        assert_eq!(rt;
            apple.block,
            Handle {
                offset: 0,
                size: 100
            }
        );
        assert_eq!(rt; apricot.separator.as_slice(), b"apricot".as_slice());
        assert_eq!(rt;
            apricot.block,
            Handle {
                offset: 105,
                size: 90
            }
        );
    }
    Ok(())
}

#[test]
fn the_first_fault_of_an_index_is_told(rt: HostRuntime) -> Result<(), Fail> {
    for (block, is_delta, wanted) in [
        // a handle with a byte behind it, before an entry that is cut and before one that isn't
        (
            b"\0\x01\x03a\0\x15\0\0\x01\0\0\0\0\0\x01\0\0\0".as_slice(),
            false,
            IndexFault::Block(BlockFault::BadEntry(7)),
        ),
        (
            b"\0\x01\x03a\0\x15\0\0\0\0\0\x01\0\0\0",
            false,
            IndexFault::BadHandle,
        ),
        // a size 101 less than 100, before an entry that is cut
        (
            b"\0\x01a\0d\x01\x01b\xC9\x01\x09\0\0\0\0\x01\0\0\0",
            true,
            IndexFault::BadHandle,
        ),
        // a block that would begin at 2^64
        (
            b"\0\x01a\x97\xFF\xFF\xFF\xFF\xFF\xFF\xFF\xFF\x01d\x01\x01b\0\0\0\0\0\x01\0\0\0",
            true,
            IndexFault::BadHandle,
        ),
        // more shared than there is, and a restart that no entry has
        (
            b"\0\x01a\0d\x02\x01b\0\0\0\0\0\x01\0\0\0",
            true,
            IndexFault::Block(BlockFault::BadEntry(5)),
        ),
        (
            b"\0\x01a\0d\x01\x01b\0\0\0\0\0\x05\0\0\0\x02\0\0\0",
            true,
            IndexFault::Block(BlockFault::BadRestarts),
        ),
    ] {
        match read_index(rt.alloc(), block, is_delta) {
            Ok(_) => return Err(Fail::new("the index reads")),
            Err(fault) => assert_eq!(rt; fault, wanted),
        }
    }
    Ok(())
}

#[test]
fn properties_are_read(rt: HostRuntime) -> Result<(), Fail> {
    let block =
        b"\0\x12\x1Arocksdb.comparatorleveldb.BytewiseComparator\x08\x0B\x02num.entries\xAC\x02\0\0\0\0\x01\0\0\0";
    let Ok(properties) = read_properties(rt.alloc(), block) else {
        return Err(Fail::new("the properties don't read"));
    };
    let [comparator, entries] = properties.as_slice() else {
        return Err(Fail::new("there aren't two properties"));
    };
    assert_eq!(rt;
        comparator.name.as_slice(),
        b"rocksdb.comparator".as_slice()
    );
    assert_eq!(rt;
        comparator.value.as_slice(),
        b"leveldb.BytewiseComparator".as_slice()
    );
    assert_eq!(rt; entries.name.as_slice(), b"rocksdb.num.entries".as_slice());
    assert_eq!(rt; entries.value.as_slice(), b"\xAC\x02".as_slice());
    match read_properties(rt.alloc(), b"\0\0\0") {
        Ok(_) => Err(Fail::new("three bytes read")),
        Err(fault) => {
            assert_eq!(rt; fault, PropFault::Block(BlockFault::Short));
            Ok(())
        }
    }
}

#[test]
fn range_deletions_are_read(rt: HostRuntime) -> Result<(), Fail> {
    let block =
        b"\0\x09\x01a\x0F\x09\0\0\0\0\0\0c\0\x09\x02b\x0F\x2C\x01\0\0\0\0\0bb\0\0\0\0\x01\0\0\0";
    let Ok(ranges) = read_ranges(rt.alloc(), block) else {
        return Err(Fail::new("the range deletions don't read"));
    };
    let [first, second] = ranges.as_slice() else {
        return Err(Fail::new("there aren't two range deletions"));
    };
    assert_eq!(rt; first.start.as_slice(), b"a".as_slice());
    assert_eq!(rt; first.end.as_slice(), b"c".as_slice());
    assert_eq!(rt; first.sequence, 9);
    assert_eq!(rt; second.start.as_slice(), b"b".as_slice());
    assert_eq!(rt; second.end.as_slice(), b"bb".as_slice());
    assert_eq!(rt; second.sequence, 300);
    // the same with a put, and a key of one byte
    for bad in [
        b"\0\x09\x01a\x01\x09\0\0\0\0\0\0c\0\0\0\0\x01\0\0\0".as_slice(),
        b"\0\x01\x01ac\0\0\0\0\x01\0\0\0",
    ] {
        match read_ranges(rt.alloc(), bad) {
            Ok(_) => return Err(Fail::new("a bad key reads")),
            Err(fault) => assert_eq!(rt; fault, RangeFault::BadKey),
        }
    }
    Ok(())
}

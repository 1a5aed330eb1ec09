// What is expected is read off the format's description.
use rk_bytes::Bytes;
use rk_ikey::*;
use std::cmp::Ordering;
use std::test::Fail;

// `a` at sequence number 1, as a put.
const PUT: [u8; 9] = [b'a', 1, 1, 0, 0, 0, 0, 0, 0];

#[test]
fn an_internal_key_is_made_and_read(rt: HostRuntime) -> Result<(), Fail> {
    let key = internal_key(rt.alloc(), b"a", 1, Kind::Value)?;
    assert_eq!(rt; key.as_slice(), PUT.as_slice());
    let greatest = internal_key(rt.alloc(), b"", TOP, Kind::RangeDeletion)?;
    assert_eq!(rt;
        greatest.as_slice(),
        [15, 255, 255, 255, 255, 255, 255, 255].as_slice()
    );
    match parse_key(&PUT) {
        Ok(parsed) => {
            assert_eq!(rt; parsed.user, b"a".as_slice());
            assert_eq!(rt; parsed.sequence, 1);
            assert_eq!(rt; parsed.kind, Kind::Value);
        }
        Err(fault) => panic!(rt; "{fault:?}"),
    }
    Ok(())
}

#[test]
fn records_share_a_place_whatever_they_put(rt: HostRuntime) -> Result<(), Fail> {
    let alloc = rt.alloc();
    let one = Record {
        family: 0,
        key: Bytes::copy_of(alloc, b"k")?,
        sequence: 1,
        kind: Kind::RangeDeletion,
        value: Bytes::copy_of(alloc, b"x")?,
    };
    let same = one.copy(alloc)?;
    assert!(rt; same_place(&one, &same));
    let other = Record {
        value: Bytes::copy_of(alloc, b"y")?,
        ..same
    };
    assert!(rt; !same_place(&one, &other));
    Ok(())
}

// Expected entries and faults were computed by a program of another language.
use rk_block::*;
use std::test::Fail;

// The entries of a block: four keys, of which the second and the fourth share bytes. The lengths of the
// fourth are spelled in five bytes.
const ENTRIES: &[u8] = b"\0\x05\x01apple1\x04\x01\x02y22\0\x06\0banana\x83\x80\0\x01\x03dxyz";

#[test]
fn entries_are_handed_out_and_their_keys_rebuilt(rt: HostRuntime) -> Result<(), Fail> {
    let block =
        b"\0\x05\x01apple1\x04\x01\x02y22\0\x06\0banana\x83\x80\0\x01\x03dxyz\0\0\0\0\x0F\0\0\0\x02\0\0\0";
    let Ok(view) = BlockView::read(block) else {
        return Err(Fail::new("the block doesn't read"));
    };
    let mut entries = view.entries();
    let mut key = KeyBuf::new(rt.alloc());
    assert_eq!(rt; key.as_slice(), b"".as_slice());
    for (shared, rest, value, whole) in [
        (0, b"apple".as_slice(), b"1".as_slice(), b"apple".as_slice()),
        (4, b"y", b"22", b"apply"),
        (0, b"banana", b"", b"banana"),
        (3, b"d", b"xyz", b"band"),
    ] {
        let Some(entry) = entries.next_entry() else {
            return Err(Fail::new("an entry is missing"));
        };
        assert_eq!(rt; entry.shared, shared);
        assert_eq!(rt; entry.rest, rest);
        assert_eq!(rt; entry.value, value);
        assert!(rt; entry.shared <= key.as_slice().len());
        key.step(&entry)?;
        assert_eq!(rt; key.as_slice(), whole);
    }
    assert!(rt; entries.next_entry().is_none());
    assert!(rt; entries.next_entry().is_none());
    Ok(())
}

#[test]
fn a_long_key_is_rebuilt(rt: HostRuntime) -> Result<(), Fail> {
    let mut key = KeyBuf::new(rt.alloc());
    let long = [b'k'; 70];
    for (shared, rest, len) in [
        (0, &long[..60], 60),
        (60, &long[..10], 70),
        (64, b"", 64),
        (60, &long, 130),
        (0, b"", 0),
    ] {
        let entry = RawEntry {
            shared,
            rest,
            value: b"",
        };
        assert!(rt; shared <= key.as_slice().len());
        key.step(&entry)?;
        assert_eq!(rt; key.as_slice().len(), len);
    }
    Ok(())
}

#[test]
fn the_first_fault_is_told(rt: HostRuntime) -> Result<(), Fail> {
    for (block, wanted) in [
        (b"\0\0\0".as_slice(), BlockFault::Short),
        (b"\0\x01\0a\0\0\0\0\x01\0\0\x80", BlockFault::HashIndex),
        (b"\0\x01\0a\0\0\0\0", BlockFault::BadRestarts),
        (b"\0\x01\0a\0\0\0\0\x02\0\0\0", BlockFault::BadRestarts),
        (b"\0\0\0\0\0\0\0\0\x02\0\0\0", BlockFault::BadRestarts),
        (b"\x01\0\0\0\x01\0\0\0", BlockFault::BadRestarts),
        (b"\x01\x01\0a\0\0\0\0\x01\0\0\0", BlockFault::BadEntry(0)),
        (
            b"\0\x01\0a\x02\x01\0b\0\0\0\0\x01\0\0\0",
            BlockFault::BadEntry(4),
        ),
        (
            b"\0\x01\0a\0\x01\x02bc\x01\0\0\0\x01\0\0\0",
            BlockFault::BadEntry(4),
        ),
        (
            b"\xFF\xFF\xFF\xFF\x1F\0\0\0\0\0\0\x01\0\0\0",
            BlockFault::BadEntry(0),
        ),
        (
            b"\0\x01\0a\0\x01\0b\x04\0\0\0\x01\0\0\0",
            BlockFault::BadRestarts,
        ),
        (
            b"\0\x01\0a\0\x01\0b\0\0\0\0\0\0\0\0\x02\0\0\0",
            BlockFault::BadRestarts,
        ),
        (
            b"\0\x01\0a\0\x01\0b\0\0\0\0\x05\0\0\0\x02\0\0\0",
            BlockFault::BadRestarts,
        ),
        (
            b"\0\x01\0a\x01\x01\0b\0\0\0\0\x04\0\0\0\x02\0\0\0",
            BlockFault::BadRestarts,
        ),
    ] {
        match BlockView::read(block) {
            Ok(_) => return Err(Fail::new("the block reads")),
            Err(fault) => assert_eq!(rt; fault, wanted),
        }
    }
    Ok(())
}

// Of the front of the entries with one restart, the entry that is cut, or `None` where none is.
fn cut_entry(len: usize) -> Option<u64> {
    match len {
        0 | 9 | 15 | 24 | 33 => None,
        1..=8 => Some(0),
        10..=14 => Some(9),
        16..=23 => Some(15),
        _ => Some(24),
    }
}

#[test]
fn an_entry_may_not_pass_the_end(rt: HostRuntime) -> Result<(), Fail> {
    for len in 0..=ENTRIES.len() {
        let mut block = Vec::from_slice(rt.alloc(), &ENTRIES[..len])?;
        block.extend_from_slice(b"\0\0\0\0\x01\0\0\0")?;
        let cut = match BlockView::read(&block) {
            Ok(_) => None,
            Err(BlockFault::BadEntry(place)) => Some(place),
            Err(_) => return Err(Fail::new("another fault")),
        };
        assert_eq!(rt; cut, cut_entry(len), "the first {len} bytes");
    }
    Ok(())
}

// Hands out up to eight entries, and gives how many there are, with how many bytes of their keys they share.
fn counted(block: &[u8]) -> Result<(u32, usize), BlockFault> {
    let mut entries = TestedEntries::new(block)?;
    let mut shared = 0usize;
    for count in 0..8 {
        match entries.next_entry()? {
            Some(entry) => shared = shared.saturating_add(entry.shared),
            None => return Ok((count, shared)),
        }
    }
    Ok((8, shared))
}

// What the first call says whose entry isn't handed out, once two entries were.
fn fault_after_two(block: &[u8]) -> Result<(), BlockFault> {
    let mut entries = TestedEntries::new(block)?;
    entries.next_entry()?;
    entries.next_entry()?;
    entries.test_rest()
}

#[test]
fn entries_are_tested_in_turn(rt: HostRuntime) -> Result<(), Fail> {
    let good =
        b"\0\x05\x01apple1\x04\x01\x02y22\0\x06\0banana\x83\x80\0\x01\x03dxyz\0\0\0\0\x0F\0\0\0\x02\0\0\0";
    assert_eq!(rt; counted(good), Ok((4, 7)));
    assert_eq!(rt; fault_after_two(good), Ok(()));
    // The second restart is at the entry that shares four bytes.
    let wrong_restart =
        b"\0\x05\x01apple1\x04\x01\x02y22\0\x06\0banana\x83\x80\0\x01\x03dxyz\0\0\0\0\x09\0\0\0\x02\0\0\0";
    assert_eq!(rt; counted(wrong_restart), Err(BlockFault::BadRestarts));
    assert_eq!(rt;
        fault_after_two(wrong_restart),
        Err(BlockFault::BadRestarts)
    );
    // The fourth entry shares seven bytes with a key of six.
    let shares_too_many =
        b"\0\x05\x01apple1\x04\x01\x02y22\0\x06\0banana\x87\x80\0\x01\x03dxyz\0\0\0\0\x0F\0\0\0\x02\0\0\0";
    assert_eq!(rt;
        fault_after_two(shares_too_many),
        Err(BlockFault::BadEntry(24))
    );
    assert_eq!(rt; counted(b"\0\0\0\0"), Err(BlockFault::BadRestarts));
    Ok(())
}

#[test]
fn a_block_is_built(rt: HostRuntime) -> Result<(), Fail> {
    let mut built = BlockBuilder::new(rt.alloc(), 2);
    assert_eq!(rt; built.size(), 8);
    for (key, value) in [
        (b"apple".as_slice(), b"1".as_slice()),
        (b"apply", b""),
        (b"apt", b"23"),
        (b"apt", b""),
        (b"b", b"4"),
    ] {
        assert!(rt; built.size() < 1000 && key.len() < 1000 && value.len() < 1000);
        built.add(key, value)?;
        assert_eq!(rt; built.last_key(), key);
    }
    assert_eq!(rt; built.size(), 45);
    let block = built.finish()?;
    let wanted =
        b"\0\x05\x01apple1\x04\x01\0y\0\x03\x02apt23\x03\0\0\0\x01\x01b4\0\0\0\0\x0D\0\0\0\x18\0\0\0\x03\0\0\0";
    assert_eq!(rt; block.as_slice(), wanted.as_slice());
    Ok(())
}

use rk_bytes::model::{EndKind, GapWhy, Status};
use rk_bytes::*;
use std::alloc::Global;
use std::test::Fail;

#[test]
fn bytes_are_copied_appended_and_given_back(rt: HostRuntime) -> Result<(), Fail> {
    let alloc = rt.alloc();
    let mut bytes = Bytes::new(alloc);
    assert_eq!(rt; bytes.as_slice(), b"".as_slice());
    bytes.append(b"MANIFEST")?;
    bytes.append(b"-000005")?;
    assert_eq!(rt; bytes.as_slice(), b"MANIFEST-000005".as_slice());
    let copy = Bytes::copy_of(alloc, bytes.as_slice())?;
    assert_eq!(rt; copy.as_slice(), b"MANIFEST-000005".as_slice());
    let same = Bytes::from_vec(copy.into_vec());
    assert_eq!(rt; same.as_slice(), b"MANIFEST-000005".as_slice());
    Ok(())
}

fn pair_of<T: Drop>(alloc: Global, first: T, second: T) -> Result<Seq<T>, Memory> {
    let mut items = Seq::new(alloc);
    items.push(first)?;
    items.push(second)?;
    Ok(Seq::from_vec(items.into_vec()))
}

#[test]
fn items_are_pushed_and_given_back(rt: HostRuntime) -> Result<(), Fail> {
    let alloc = rt.alloc();
    let mut numbers = Seq::new(alloc);
    assert_eq!(rt; numbers.as_slice(), [].as_slice());
    numbers.push(7u64)?;
    numbers.push(300)?;
    assert_eq!(rt; numbers.as_slice(), [7, 300].as_slice());
    let same = Seq::from_vec(numbers.into_vec());
    assert_eq!(rt; same.as_slice(), [7, 300].as_slice());
    let pair = pair_of(alloc, 'a', 'b')?;
    assert_eq!(rt; pair.as_slice(), ['a', 'b'].as_slice());
    Ok(())
}

#[test]
fn a_text_is_copied(rt: HostRuntime) -> Result<(), Fail> {
    for text in ["", "CURRENT", "größer"] {
        let copy = Text::copy_of(rt.alloc(), text)?;
        assert_eq!(rt; copy.as_str(), text);
    }
    Ok(())
}

#[test]
fn a_cursor_takes_parts_in_turn(rt: HostRuntime) {
    let bytes = b"abcdef";
    let mut cursor = Cursor::new(bytes.as_slice());
    for (n, part, place, rest) in [
        (0, Ok(b"".as_slice()), 0, b"abcdef".as_slice()),
        (2, Ok(b"ab".as_slice()), 2, b"cdef".as_slice()),
        (5, Err(NumFault::Cut), 2, b"cdef".as_slice()),
        (3, Ok(b"cde".as_slice()), 5, b"f".as_slice()),
        (1, Ok(b"f".as_slice()), 6, b"".as_slice()),
        (1, Err(NumFault::Cut), 6, b"".as_slice()),
    ] {
        assert_eq!(rt; cursor.take(n), part, "taking {n}");
        assert_eq!(rt; cursor.place(), place, "after taking {n}");
        assert_eq!(rt; cursor.rest(), rest, "after taking {n}");
    }
}

#[test]
fn fixed32_is_little_endian(rt: HostRuntime) {
    for (bytes, number, place) in [
        (
            [0x78, 0x56, 0x34, 0x12, 0xFF].as_slice(),
            Ok(0x1234_5678),
            4,
        ),
        ([0x78, 0x56, 0x34].as_slice(), Err(NumFault::Cut), 0),
    ] {
        let mut cursor = Cursor::new(bytes);
        assert_eq!(rt; cursor.fixed32(), number);
        assert_eq!(rt; cursor.place(), place);
        assert_eq!(rt; cursor.rest(), &bytes[place..]);
    }
}

#[test]
fn gaps_ends_and_memory_are_printed(rt: HostRuntime) -> Result<(), Fail> {
    let alloc = rt.alloc();
    for (why, word) in [
        (GapWhy::Checksum, "Checksum"),
        (GapWhy::Length, "Length"),
        (GapWhy::UnknownType, "UnknownType"),
        (GapWhy::MissingStart, "MissingStart"),
        (GapWhy::MissingEnd, "MissingEnd"),
        (GapWhy::Mixed, "Mixed"),
    ] {
        assert_eq!(rt; format!(in alloc; "{why}")?.as_str(), word);
    }
    for (kind, words) in [
        (EndKind::Clean, "Clean"),
        (EndKind::Torn, "Torn"),
        (EndKind::Stale, "Stale"),
        (EndKind::Unsupported(5), "Unsupported 5"),
    ] {
        assert_eq!(rt; format!(in alloc; "{kind}")?.as_str(), words);
    }
    assert_eq!(rt; format!(in alloc; "{Memory}")?.as_str(), "out of memory");
    Ok(())
}

#[test]
fn exit_statuses_count_from_success(rt: HostRuntime) {
    for (status, number) in [
        (Status::Done, 0),
        (Status::Refused, 1),
        (Status::Usage, 2),
        (Status::DiskFault, 3),
        (Status::SinkFault, 4),
        (Status::Memory, 5),
    ] {
        assert_eq!(rt; status.exit_status(), number);
    }
}

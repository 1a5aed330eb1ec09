// Expected bytes and parts were computed by a program of another language.
use rk_batch::*;
use std::process::Abort;
use std::test::Fail;

// A part of a batch. Parts themselves aren't compared.
#[derive(Debug, PartialEq, Drop)]
enum Told<'a> {
    Change(u64, u32, Kind, &'a [u8], &'a [u8], u64),
    LogBytes(u64, &'a [u8]),
    Noop(u64),
}

fn seen(part: BatchRecord<'_>) -> Told<'_> {
    match part {
        BatchRecord::Change {
            place,
            family,
            kind,
            key,
            value,
            sequence,
        } => Told::Change(place, family, kind, key, value, sequence),
        BatchRecord::LogBytes { place, bytes } => Told::LogBytes(place, bytes),
        BatchRecord::Noop { place } => Told::Noop(place),
    }
}

// The parts that are left of the batch are these.
fn assert_left<R: Abort>(
    rt: &R,
    batch: &mut BatchView<'_>,
    parts: &[Told<'_>],
) -> Result<(), Fail> {
    for wanted in parts {
        let Some(part) = batch.next_record() else {
            return Err(Fail::new("a part is missing"));
        };
        assert_eq!(rt; seen(part), *wanted);
    }
    assert!(rt; batch.next_record().is_none());
    Ok(())
}

fn view_of(bytes: &[u8]) -> Result<BatchView<'_>, Fail> {
    match BatchView::read(bytes) {
        Ok(batch) => Ok(batch),
        Err(_) => Err(Fail::new("the batch doesn't read")),
    }
}

#[test]
fn parts_are_handed_out_in_turn(rt: HostRuntime) -> Result<(), Fail> {
    // The length of the first key is spelled in four bytes.
    let bytes =
        b"\x05\0\0\0\0\0\0\0\x03\0\0\0\x0D\x03\x02xy\x05\x07\x82\x80\x80\0ab\x01c\0\x01d\x0E\x80\x01\x01e\x01f";
    let parts = [
        Told::Noop(12),
        Told::LogBytes(13, b"xy"),
        Told::Change(17, 7, Kind::Value, b"ab", b"c", 5),
        Told::Change(27, 0, Kind::Deletion, b"d", b"", 6),
        Told::Change(30, 128, Kind::RangeDeletion, b"e", b"f", 7),
    ];
    let mut batch = view_of(bytes.as_slice())?;
    assert_eq!(rt; batch.sequence(), 5);
    assert_eq!(rt; batch.count(), 3);
    assert_left(&rt, &mut batch, &parts)?;
    batch.restart();
    assert_left(&rt, &mut batch, &parts)
}

#[test]
fn the_first_fault_is_told(rt: HostRuntime) -> Result<(), Fail> {
    for (bytes, wanted) in [
        (b"\0\0\0\0\0\0\0\0\0\0\0".as_slice(), BatchFault::TooSmall),
        (
            b"\x05\0\0\0\0\0\0\0\0\0\0\0\x0D\x01\x01a\x02x".as_slice(),
            BatchFault::BadRecord(13),
        ),
        (
            b"\x05\0\0\0\0\0\0\0\0\0\0\0\x20".as_slice(),
            BatchFault::BadRecord(12),
        ),
        (
            b"\x05\0\0\0\0\0\0\0\0\0\0\0\x09\x20".as_slice(),
            BatchFault::UnsupportedTag(9),
        ),
        (
            b"\0\0\0\0\0\0\0\x01\x02\0\0\0\0\x01a".as_slice(),
            BatchFault::WrongCount {
                stated: 2,
                found: 1,
            },
        ),
        (
            b"\xFF\xFF\xFF\xFF\xFF\xFF\xFF\0\x02\0\0\0\0\x01a\0\x01b".as_slice(),
            BatchFault::SequenceTop,
        ),
        (
            b"\0\0\0\0\0\0\0\x01\0\0\0\0".as_slice(),
            BatchFault::SequenceTop,
        ),
    ] {
        match BatchView::read(bytes) {
            Ok(_) => return Err(Fail::new("the batch reads")),
            Err(fault) => assert_eq!(rt; fault, wanted),
        }
    }
    Ok(())
}

#[test]
fn records_are_written_and_read_again(rt: HostRuntime) -> Result<(), Fail> {
    let mut builder = BatchBuilder::new(rt.alloc(), 0x0001_1223_3445_5667)?;
    builder.add(0, Kind::Value, b"a", b"1")?;
    builder.add(300, Kind::Deletion, b"b", b"")?;
    builder.add(0, Kind::Merge, b"c", b"2")?;
    builder.add(7, Kind::RangeDeletion, b"d", b"f")?;
    builder.add(0, Kind::SingleDeletion, b"e", b"")?;
    builder.add(u32::MAX, Kind::Value, b"", b"")?;
    let written = builder.finish();
    let bytes =
        b"gVE4#\x12\x01\0\x06\0\0\0\x01\x01a\x011\x04\xAC\x02\x01b\x02\x01c\x012\x0E\x07\x01d\x01f\x07\x01e\x05\xFF\xFF\xFF\xFF\x0F\0\0";
    assert_eq!(rt; written.as_slice(), bytes.as_slice());
    let batch = view_of(written.as_slice())?;
    assert_eq!(rt; batch.sequence(), 0x0001_1223_3445_5667);
    assert_eq!(rt; batch.count(), 6);
    Ok(())
}

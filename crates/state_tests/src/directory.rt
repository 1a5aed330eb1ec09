//! Directories in memory, opened. Checksums and the table are made elsewhere.
use crate::current::FIRST;
use rk_bytes::model::{WalErr, WalWhy};
use rk_bytes::{Bytes, Memory};
use rk_disk::MemDisk;
use rk_open::{Mode, OpenErr, open_best, open_db, open_full};
use std::alloc::Global;
use std::test::Fail;

/// A table of one record, `a` = `x` at sequence number 1.
const TABLE: [u8; 114] =
    *b"\0\x09\x01a\x01\x01\0\0\0\0\0\0x\0\0\0\0\x01\0\0\0\0\x84\xDD\x88t\0\0\0\0\x01\0\0\0\0\xC0\xF2\xA1\xB0\0\x09\x02a\x01\x01\0\0\0\0\0\0\0\x15\0\0\0\0\x01\0\0\0\06I%\xBF\x1A\x08'\x16\0\0\0\0\0\0\0\0\0\0\0\0\0\0\0\0\0\0\0\0\0\0\0\0\0\0\0\0\0\0\0\0\0\0\0\0W\xFB\x80\x8B$uG\xDB";

/// Edits that add table 4 with 114 bytes, with 115 bytes, and with bounds at the key `b`.
const ADDS: &[u8] =
    b"\xd0\xc9\x5c\xc8\x18\0\x01\x07\0\x04r\x09a\x01\x01\0\0\0\0\0\0\x09a\x01\x01\0\0\0\0\0\0";

const ADDS_LONGER: &[u8] =
    b"\xc4\xaf\x86\x80\x18\0\x01\x07\0\x04s\x09a\x01\x01\0\0\0\0\0\0\x09a\x01\x01\0\0\0\0\0\0";

const ADDS_ELSEWHERE: &[u8] =
    b"\xbd\x5b\xbd\x1c\x18\0\x01\x07\0\x04r\x09b\x01\x01\0\0\0\0\0\0\x09b\x01\x01\0\0\0\0\0\0";

/// An edit that moves table 4 to level 1.
const MOVES: &[u8] =
    b"u\xf5%~\x1b\0\x01\x06\0\x04\x07\x01\x04r\x09a\x01\x01\0\0\0\0\0\0\x09a\x01\x01\0\0\0\0\0\0";

/// Edits that track log 3 with 48 synced bytes, and that forget the logs below 4.
const TRACKS: &[u8] = b"E\xa4\x01_\x07\0\x01\x87@\x04\x03\x020\x01";

const FORGETS: &[u8] = b"\x8c\x80f\x1c\x04\0\x01\x88@\x01\x04";

/// A log of a put of `a` at 1 and of one of `b` at 2.
const LOG: [u8; 48] =
    *b"\xe9\x9fx\x19\x11\0\x01\x01\0\0\0\0\0\0\0\x01\0\0\0\x01\x01a\x011\x8fr\xbcz\x11\0\x01\x02\0\0\0\0\0\0\0\x01\0\0\0\x01\x01b\x012";

/// A new database with two more edits.
fn database(alloc: Global, edits: [&[u8]; 2]) -> Result<MemDisk, Memory> {
    let mut manifest = Bytes::copy_of(alloc, FIRST)?;
    manifest.append(edits[0])?;
    manifest.append(edits[1])?;
    let mut disk = MemDisk::new(alloc)?;
    disk.put_file("CURRENT", b"MANIFEST-000002\n")?;
    disk.put_file("MANIFEST-000002", manifest.as_slice())?;
    Ok(disk)
}

/// How many records the directory is opened to.
fn count(alloc: Global, disk: &mut MemDisk, mode: Mode) -> Result<u64, OpenErr> {
    match open_db(alloc, disk, mode) {
        Ok(state) => Ok(state.count()),
        Err(why) => Err(why),
    }
}

#[test]
fn listed_tables_are_tested(rt: HostRuntime) -> Result<(), Fail> {
    let alloc = rt.alloc();
    let longer = OpenErr::SizeMismatch {
        n: 4,
        stated: 115,
        found: 114,
    };
    let cases = [
        (ADDS, Ok(1)),
        (ADDS_LONGER, Err(longer)),
        (ADDS_ELSEWHERE, Err(OpenErr::OutOfBounds(4))),
    ];
    for (edit, wanted) in cases {
        let mut disk = database(alloc, [edit, b""])?;
        let absent = count(alloc, &mut disk, Mode::PointInTime);
        assert_eq!(rt; absent, Err(OpenErr::MissingTable(4)));
        disk.put_file("000004.sst", &TABLE)?;
        assert_eq!(rt; count(alloc, &mut disk, Mode::PointInTime), wanted);
    }
    Ok(())
}

/// How many units count for the only family, and how many records there are, by best efforts.
fn by_best_efforts(alloc: Global, disk: &mut MemDisk) -> Option<(u64, u64)> {
    let best = open_best(alloc, disk).ok()?;
    match best.points.as_slice() {
        [point] => Some((point.at, best.state.count())),
        _ => None,
    }
}

#[test]
fn a_table_that_is_moved_is_read_once(rt: HostRuntime) -> Result<(), Fail> {
    let alloc = rt.alloc();
    let mut disk = database(alloc, [ADDS, MOVES])?;
    disk.put_file("000004.sst", &TABLE)?;
    assert_eq!(rt; by_best_efforts(alloc, &mut disk), Some((3, 1)));
    // The five bytes before its footer are read with it too, since another form of footer has as many more.
    assert_eq!(rt; disk.bytes_read("000004.sst"), 114 + 5);
    Ok(())
}

#[test]
fn tracked_logs_are_tested(rt: HostRuntime) -> Result<(), Fail> {
    let alloc = rt.alloc();
    let mut disk = database(alloc, [TRACKS, b""])?;
    let absent = count(alloc, &mut disk, Mode::PointInTime);
    assert_eq!(rt; absent, Err(OpenErr::MissingLog(3)));
    disk.put_file("000003.log", &LOG[..47])?;
    let short = OpenErr::ShortLog {
        n: 3,
        stated: 48,
        found: 47,
    };
    assert_eq!(rt; count(alloc, &mut disk, Mode::TolerateTail), Err(short));
    disk.put_file("000003.log", &LOG)?;
    assert_eq!(rt; count(alloc, &mut disk, Mode::Absolute), Ok(2));
    let mut forgotten = database(alloc, [TRACKS, FORGETS])?;
    assert_eq!(rt; count(alloc, &mut forgotten, Mode::PointInTime), Ok(0));
    Ok(())
}

/// What the first bytes of the log are opened to where damage is refused: two records of 24 bytes each.
fn absolute(len: u64) -> Result<u64, OpenErr> {
    let place = len / 24 * 24;
    if len == place {
        return Ok(len / 24);
    }
    Err(OpenErr::Wal(WalErr::Corrupt {
        log: 3,
        place,
        why: WalWhy::Torn,
    }))
}

#[test]
fn fronts_of_a_log_are_opened(rt: HostRuntime) -> Result<(), Fail> {
    let alloc = rt.alloc();
    let mut disk = database(alloc, [b"", b""])?;
    for len in 0..=48 {
        disk.put_file("000003.log", &LOG[..len])?;
        let len = len as u64;
        assert_eq!(rt; count(alloc, &mut disk, Mode::TolerateTail), Ok(len / 24));
        assert_eq!(rt; count(alloc, &mut disk, Mode::Absolute), absolute(len));
    }
    Ok(())
}

/// What is told of an opened directory: its manifest, the sequence number that is expected next, the log in
/// which replay stopped, and the greatest sequence number.
fn told(alloc: Global, disk: &mut MemDisk) -> Option<(u64, u64, Option<u64>, u64)> {
    let opened = open_full(alloc, disk, Mode::PointInTime).ok()?;
    Some((opened.manifest, opened.expected, opened.stopped, opened.top))
}

#[test]
fn replay_goes_as_far_as_the_log(rt: HostRuntime) -> Result<(), Fail> {
    let alloc = rt.alloc();
    let mut disk = database(alloc, [b"", b""])?;
    disk.put_file("000003.log", &LOG)?;
    assert_eq!(rt; told(alloc, &mut disk), Some((2, 3, None, 2)));
    disk.put_file("000003.log", &LOG[..47])?;
    assert_eq!(rt; told(alloc, &mut disk), Some((2, 2, Some(3), 1)));
    Ok(())
}

ghost use Rattle.std.specs.Prelude.{None};

use rk_bytes::{Seq, Text};
use rk_disk::*;
use std::alloc::Global;
use std::test::Fail;

fn names_of<D: Disk>(alloc: Global, disk: &mut D) -> Result<Seq<Text>, DiskErr> {
    disk.names(alloc)
}

fn size_of_file<D: Disk>(disk: &mut D, name: &str) -> Result<Option<u64>, DiskErr> {
    disk.size(name)
}

fn read_at<D: Disk>(disk: &mut D, name: &str, at: u64, buf: &mut [u8]) -> Result<usize, DiskErr> {
    disk.read(name, at, buf)
}

fn write_to<S: Sink>(sink: &mut S, bytes: &[u8]) -> Result<(), SinkErr> {
    sink.write(bytes)
}

fn flushed<S: Sink>(sink: &mut S) -> Result<(), SinkErr> {
    sink.flush()
}

#[test]
fn a_file_is_put_and_replaced(rt: HostRuntime) -> Result<(), Fail> {
    let mut disk = MemDisk::new(rt.alloc())?;
    disk.put_file("CURRENT", b"old")?;
    disk.put_file("CURRENT", b"newer")?;
    assert_eq!(rt; disk.file("CURRENT"), Some(b"newer".as_slice()));
    assert_eq!(rt; disk.file("LOCK"), None);
    assert_eq!(rt; disk.calls(), 0);
    assert_eq!(rt; size_of_file(&mut disk, "CURRENT"), Ok(Some(5)));
    assert_eq!(rt; size_of_file(&mut disk, "LOCK"), Ok(None));
    assert_eq!(rt; disk.calls(), 2);
    Ok(())
}

#[test]
fn a_calm_disk_tells_what_was_put(rt: HostRuntime) -> Result<(), Fail> {
    let mut disk = CalmDisk::new(rt.alloc())?;
    disk.put_file("CURRENT", b"old")?;
    disk.put_file("CURRENT", b"newer")?;
    assert_eq!(rt; disk.file("CURRENT"), Some(b"newer".as_slice()));
    assert_eq!(rt; size_of_file(&mut disk, "CURRENT"), Ok(Some(5)));
    assert_eq!(rt; size_of_file(&mut disk, "LOCK"), Ok(None));
    let mut buf = [b'.'; 4];
    assert_eq!(rt; read_at(&mut disk, "CURRENT", 2, &mut buf), Ok(3));
    assert_eq!(rt; buf, *b"wer.");
    let Ok(names) = names_of(rt.alloc(), &mut disk) else {
        return Err(Fail::new("the names aren't told"));
    };
    assert_eq!(rt; names.as_slice().len(), 1);
    Ok(())
}

#[test]
fn names_rise(rt: HostRuntime) -> Result<(), Fail> {
    let alloc = rt.alloc();
    let mut disk = MemDisk::new(alloc)?;
    for name in [
        "lost/000001.log",
        "notes",
        "CURRENT",
        "000009.sst",
        "000010.log",
    ] {
        disk.put_file(name, b"")?;
    }
    let names = names_of(alloc, &mut disk)?;
    let rising = [
        "000009.sst",
        "000010.log",
        "CURRENT",
        "lost/000001.log",
        "notes",
    ];
    assert_eq!(rt; names.as_slice().len(), rising.len());
    for (name, expected) in names.as_slice().iter().zip(rising) {
        assert_eq!(rt; name.as_str(), expected);
    }
    Ok(())
}

#[test]
fn a_read_fills_the_front_of_the_buffer(rt: HostRuntime) -> Result<(), Fail> {
    let mut disk = MemDisk::new(rt.alloc())?;
    disk.put_file("f", b"abcdef")?;
    for (name, at, count, filled) in [
        ("f", 0, 4, b"abcd"),
        ("f", 4, 2, b"ef--"),
        ("f", 6, 0, b"----"),
        ("f", u64::MAX, 0, b"----"),
        ("absent", 0, 0, b"----"),
    ] {
        let mut buf = [b'-'; 4];
        assert_eq!(rt;
            read_at(&mut disk, name, at, &mut buf),
            Ok(count),
            "{name} at {at}"
        );
        assert_eq!(rt; buf, *filled, "{name} at {at}");
    }
    Ok(())
}

#[test]
fn a_file_is_read_in_pieces(rt: HostRuntime) -> Result<(), Fail> {
    let alloc = rt.alloc();
    let mut disk = MemDisk::new(alloc)?;
    let mut bytes = Vec::new(alloc);
    for i in 0..70_000u32 {
        bytes.push((i % 251) as u8)?;
    }
    disk.put_file("000005.log", &bytes)?;
    disk.put_file("empty", b"")?;
    // The size, and pieces of 32,768, 32,768 and 4,464 bytes.
    for (name, expected, calls) in [
        ("000005.log", Some(bytes.as_slice()), 4),
        ("empty", Some(b"".as_slice()), 5),
        ("absent", None, 6),
    ] {
        let read = read_file(alloc, &mut disk, name)?;
        assert_eq!(rt;
            read.as_ref().map(|file| file.as_slice()),
            expected,
            "{name}"
        );
        assert_eq!(rt; disk.calls(), calls, "{name}");
    }
    Ok(())
}

#[test]
fn a_size_is_not_believed(rt: HostRuntime) -> Result<(), Fail> {
    let alloc = rt.alloc();
    let mut disk = LyingDisk::new(alloc);
    for (size, bytes, read) in [
        (1 << 62, b"".as_slice(), b"".as_slice()),
        (u64::MAX, b"abc", b"abc"),
        (2, b"abc", b"ab"),
    ] {
        disk.say("f", size, bytes)?;
        assert_eq!(rt; size_of_file(&mut disk, "f"), Ok(Some(size)));
        let file = read_file(alloc, &mut disk, "f")?;
        assert_eq!(rt;
            file.as_ref().map(|file| file.as_slice()),
            Some(read),
            "{size}"
        );
    }
    assert_eq!(rt; names_of(alloc, &mut disk)?.as_slice().len(), 1);
    assert_eq!(rt; read_file(alloc, &mut disk, "absent")?.is_none(), true);
    Ok(())
}

// A disk whose reads give one byte at most.
#[derive(Drop)]
struct Slow {
    disk: MemDisk,
}

impl Disk for Slow {
    ghost told = { λ _. None };

    ghost faults = { λ slow. slow.disk.plan.failed };

    fn names(&mut self, alloc: Global) -> Result<Seq<Text>, DiskErr> {
        self.disk.names(alloc)
    }

    fn size(&mut self, name: &str) -> Result<Option<u64>, DiskErr> {
        self.disk.size(name)
    }

    fn read(&mut self, name: &str, at: u64, buf: &mut [u8]) -> Result<usize, DiskErr> {
        match buf.first_mut() {
            Some(byte) => self.disk.read(name, at, std::slice::from_mut(byte)),
            None => Ok(0),
        }
    }
}

#[test]
fn a_piece_goes_on_after_a_short_read(rt: HostRuntime) -> Result<(), Fail> {
    let mut slow = Slow {
        disk: MemDisk::new(rt.alloc())?,
    };
    slow.disk.put_file("f", b"abcdef")?;
    for (at, count, filled) in [(1, 4, b"bcde"), (4, 2, b"ef--"), (u64::MAX, 0, b"----")] {
        let mut buf = [b'-'; 4];
        assert_eq!(rt;
            read_piece(&mut slow, "f", at, &mut buf),
            Ok(count),
            "at {at}"
        );
        assert_eq!(rt; buf, *filled, "at {at}");
    }
    Ok(())
}

#[test]
fn a_disk_fails_where_it_is_set_to(rt: HostRuntime) -> Result<(), Fail> {
    let alloc = rt.alloc();
    let mut disk = MemDisk::new(alloc)?;
    disk.put_file("f", b"abc")?;
    for call in [5, 2, 2, 0, 3] {
        disk.fail_at(call)?;
    }
    let mut buf = [0; 4];
    for (call, fails) in [
        (1, false),
        (2, true),
        (3, true),
        (4, false),
        (5, true),
        (6, false),
    ] {
        // A number that has passed changes nothing.
        disk.fail_at(call - 1)?;
        let read = read_at(&mut disk, "f", 0, &mut buf);
        assert_eq!(rt;
            read,
            if fails { Err(DiskErr::Failed) } else { Ok(3) },
            "call {call}"
        );
        assert_eq!(rt; disk.calls(), call);
    }
    Ok(())
}

#[test]
fn reads_fail_from_an_offset_on_and_others_are_counted(rt: HostRuntime) -> Result<(), Fail> {
    let mut disk = MemDisk::new(rt.alloc())?;
    disk.put_file("f", b"abcdef")?;
    disk.put_file("g", b"xy")?;
    disk.fail_from("f", 4)?;
    let mut buf = [0; 4];
    for (name, at, read) in [
        ("f", 0, Ok(4)),
        ("f", 3, Ok(3)),
        ("f", 4, Err(DiskErr::Failed)),
        ("f", u64::MAX, Err(DiskErr::Failed)),
        ("g", 4, Ok(0)),
        ("g", 0, Ok(2)),
    ] {
        assert_eq!(rt;
            read_at(&mut disk, name, at, &mut buf),
            read,
            "{name} at {at}"
        );
    }
    disk.put_file("f", b"new")?;
    for (name, sum) in [("f", 7), ("g", 2), ("absent", 0)] {
        assert_eq!(rt; disk.bytes_read(name), sum, "{name}");
    }
    Ok(())
}

#[test]
fn each_call_can_fail(rt: HostRuntime) -> Result<(), Fail> {
    let alloc = rt.alloc();
    let mut disk = MemDisk::new(alloc)?;
    disk.put_file("f", b"abc")?;
    for call in [1, 2, 4] {
        disk.fail_at(call)?;
    }
    assert_eq!(rt; names_of(alloc, &mut disk).err(), Some(DiskErr::Failed));
    assert_eq!(rt; size_of_file(&mut disk, "f"), Err(DiskErr::Failed));
    // The read that follows the size.
    assert_eq!(rt;
        read_file(alloc, &mut disk, "f").err(),
        Some(DiskErr::Failed)
    );
    assert_eq!(rt; disk.file("f"), Some(b"abc".as_slice()));
    Ok(())
}

#[test]
fn an_output_fails_where_it_is_set_to(rt: HostRuntime) -> Result<(), Fail> {
    let mut sink = MemSink::new(rt.alloc());
    for call in [4, 2, 2, 0] {
        sink.fail_at(call)?;
    }
    for (call, fails, taken) in [
        (1, false, b"ab".as_slice()),
        (2, true, b"ab"),
        (3, false, b"abab"),
        (4, true, b"abab"),
        (5, false, b"ababab"),
    ] {
        sink.fail_at(call - 1)?;
        // A flush is no write, and never fails.
        assert_eq!(rt; flushed(&mut sink), Ok(()));
        let wrote = write_to(&mut sink, b"ab");
        assert_eq!(rt;
            wrote,
            if fails { Err(SinkErr::Failed) } else { Ok(()) },
            "call {call}"
        );
        assert_eq!(rt; sink.taken(), taken, "call {call}");
    }
    Ok(())
}

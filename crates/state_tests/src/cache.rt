// The table was made by a program of another language, from the format's description. Its data block stands at
// 0, its metaindex at 26, its index at 39 and its footer at 66.
ghost use Rattle.std.specs.Prelude.{None};

use rk_bytes::{Seq, Text};
use rk_cache::*;
use rk_disk::{Disk, DiskErr, MemDisk};
use rk_table::TableWhy;
use std::alloc::Global;
use std::num::NonZeroUsize;
use std::test::Fail;

const TABLE: [u8; 114] =
    *b"\0\x09\x01a\x01\x01\0\0\0\0\0\0x\0\0\0\0\x01\0\0\0\0\x84\xDD\x88t\0\0\0\0\x01\0\0\0\0\xC0\xF2\xA1\xB0\0\x09\x02a\x01\x01\0\0\0\0\0\0\0\x15\0\0\0\0\x01\0\0\0\06I%\xBF\x1A\x08'\x16\0\0\0\0\0\0\0\0\0\0\0\0\0\0\0\0\0\0\0\0\0\0\0\0\0\0\0\0\0\0\0\0\0\0\0\0W\xFB\x80\x8B$uG\xDB";

const DATA: Handle = Handle {
    offset: 0,
    size: 21,
};

const METAINDEX: Handle = Handle {
    offset: 26,
    size: 8,
};

const INDEX: Handle = Handle {
    offset: 39,
    size: 22,
};

// A disk in memory that doesn't tell its contents, so that no test has to show what a cache keeps.
#[derive(Drop)]
struct Untold {
    disk: MemDisk,
}

impl Disk for Untold {
    ghost told = { λ _. None };

    ghost faults = { λ d. d.disk.plan.failed };

    fn names(&mut self, alloc: Global) -> Result<Seq<Text>, DiskErr> {
        self.disk.names(alloc)
    }

    fn size(&mut self, name: &str) -> Result<Option<u64>, DiskErr> {
        self.disk.size(name)
    }

    fn read(&mut self, name: &str, at: u64, buf: &mut [u8]) -> Result<usize, DiskErr> {
        self.disk.read(name, at, buf)
    }
}

// A disk with the table under the number 4.
fn disk_with(alloc: Global, table: &[u8]) -> Result<Untold, Fail> {
    let mut disk = MemDisk::new(alloc)?;
    disk.put_file("000004.sst", table)?;
    Ok(Untold { disk })
}

// Whether the block of this handle is this.
fn is_read(cache: &mut BlockCache, disk: &mut Untold, handle: Handle, wanted: &[u8]) -> bool {
    match cache.read_block(disk, 4, 66, handle, SumKind::Crc32c) {
        Ok(block) => block == wanted,
        Err(_) => false,
    }
}

#[test]
fn a_cache_of_one_block_reads_two_in_turn(rt: HostRuntime) -> Result<(), Fail> {
    let mut disk = disk_with(rt.alloc(), &TABLE)?;
    let mut cache = BlockCache::new(rt.alloc(), NonZeroUsize::MIN)?;
    let (data, index) = (&TABLE[..21], &TABLE[39..61]);
    for (handle, block, calls) in [
        (DATA, data, 1),
        (INDEX, index, 2),
        (DATA, data, 3),
        (DATA, data, 3),
        (INDEX, index, 4),
    ] {
        assert!(rt; is_read(&mut cache, &mut disk, handle, block));
        assert_eq!(rt; disk.disk.calls(), calls);
    }
    Ok(())
}

#[test]
fn the_least_recently_used_block_goes(rt: HostRuntime) -> Result<(), Fail> {
    let Some(two) = NonZeroUsize::new(2) else {
        return Err(Fail::new("two is no number"));
    };
    let mut disk = disk_with(rt.alloc(), &TABLE)?;
    let mut cache = BlockCache::new(rt.alloc(), two)?;
    let (data, index) = (&TABLE[..21], &TABLE[39..61]);
    for (handle, block, calls) in [
        (DATA, data, 1),
        (INDEX, index, 2),
        (DATA, data, 2),
        (METAINDEX, &TABLE[26..34], 3),
        (DATA, data, 3),
        (INDEX, index, 4),
    ] {
        assert!(rt; is_read(&mut cache, &mut disk, handle, block));
        assert_eq!(rt; disk.disk.calls(), calls);
    }
    Ok(())
}

#[test]
fn a_fault_is_not_kept(rt: HostRuntime) -> Result<(), Fail> {
    let mut disk = disk_with(rt.alloc(), &TABLE)?;
    disk.disk.fail_at(1)?;
    let mut cache = BlockCache::new(rt.alloc(), NonZeroUsize::MIN)?;
    let past = Handle {
        offset: 0,
        size: 1 << 62,
    };
    let out = CacheFault::Trailer(TrailerFault::OutOfFile);
    for (size, handle, fault) in [
        (66, DATA, CacheFault::Disk),
        (66, past, out),
        (u64::MAX, past, out),
        (25, DATA, out),
    ] {
        match cache.read_block(&mut disk, 4, size, handle, SumKind::Crc32c) {
            Ok(_) => return Err(Fail::new("the block is read")),
            Err(error) => assert_eq!(rt; error, fault),
        }
    }
    assert!(rt; is_read(&mut cache, &mut disk, DATA, &TABLE[..21]));
    Ok(())
}

// What is found of a table: how many records it has, or the place of its damage.
fn found(alloc: Global, table: &[u8]) -> Result<Result<u64, (TableWhy, u64)>, Fail> {
    let mut disk = disk_with(alloc, table)?;
    let mut cache = BlockCache::new(alloc, NonZeroUsize::MIN)?;
    match cache.read_status(&mut disk, 4, table.len() as u64) {
        Ok(Status::Good(table)) => Ok(Ok(table.entries)),
        Ok(Status::Damaged { why, place }) => Ok(Err((why, place))),
        _ => Err(Fail::new("no status is found")),
    }
}

#[test]
fn a_status_is_found_block_by_block(rt: HostRuntime) -> Result<(), Fail> {
    let mut changed = TABLE;
    changed[12] = b'y';
    for (table, wanted) in [
        (&TABLE[..], Ok(1)),
        (&changed[..], Err((TableWhy::Checksum, 0))),
        (&TABLE[..47], Err((TableWhy::FooterShort, 0))),
    ] {
        assert_eq!(rt; found(rt.alloc(), table)?, wanted);
    }
    Ok(())
}

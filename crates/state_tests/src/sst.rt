// The table was made by a program of another language, from the format's description.
ghost use Rattle.std.specs.Prelude.{None};

use rk_bytes::{Bytes, Seq, Text};
use rk_disk::{Disk, DiskErr, MemDisk};
use rk_sst::*;
use std::alloc::Global;
use std::test::Fail;

// A table of two data blocks, `a` = `x` at sequence 1 and `b` = `y` at 2, with 100,000 zero bytes between them.
// The second block stands at 100,026, the metaindex at 100,052, the index at 100,065 and the footer at 100,112.
const FIRST_BLOCK: &[u8] = b"\0\x09\x01a\x01\x01\0\0\0\0\0\0x\0\0\0\0\x01\0\0\0\0\x84\xDD\x88t";

const SECOND_BLOCK: &[u8] = b"\0\x09\x01b\x01\x02\0\0\0\0\0\0y\0\0\0\0\x01\0\0\0\0\xF1#\xBFM";

const REST: &[u8] =
    b"\0\0\0\0\x01\0\0\0\0\xC0\xF2\xA1\xB0\0\x09\x02a\x01\x01\0\0\0\0\0\0\0\x15\0\x09\x04b\x01\x02\0\0\0\0\0\0\xBA\x8D\x06\x15\0\0\0\0\x0E\0\0\0\x02\0\0\0\0\xF8^pl\xD4\x8D\x06\x08\xE1\x8D\x06*\0\0\0\0\0\0\0\0\0\0\0\0\0\0\0\0\0\0\0\0\0\0\0\0\0\0\0\0\0\0\0\0W\xFB\x80\x8B$uG\xDB";

// A disk in memory that doesn't tell its contents, so that no test has to show what is left of a table.
#[derive(Drop)]
struct Untold {
    disk: MemDisk,
}

impl Disk for Untold {
    ghost told = { λ _. None };

    ghost faults = { λ d. d.disk.plan.failed };

    fn names(&mut self, alloc: Global) -> Result<Seq<Text>, DiskErr> {
        self.disk.names(alloc)
    }

    fn size(&mut self, name: &str) -> Result<Option<u64>, DiskErr> {
        self.disk.size(name)
    }

    fn read(&mut self, name: &str, at: u64, buf: &mut [u8]) -> Result<usize, DiskErr> {
        self.disk.read(name, at, buf)
    }
}

// A disk with the table under the number 4, and one that is shorter than a footer under the number 5.
fn disk_with_tables(alloc: Global) -> Result<Untold, Fail> {
    let zeros = Bytes::from_vec(vec![in alloc; 0; 100_000]?);
    let mut table = Bytes::copy_of(alloc, FIRST_BLOCK)?;
    table.append_both(zeros.as_slice(), SECOND_BLOCK)?;
    table.append(REST)?;
    let mut disk = MemDisk::new(alloc)?;
    disk.put_file("000004.sst", table.as_slice())?;
    disk.put_file("000005.sst", FIRST_BLOCK)?;
    Ok(Untold { disk })
}

#[test]
fn records_are_given_block_by_block(rt: HostRuntime) -> Result<(), Fail> {
    let mut disk = disk_with_tables(rt.alloc())?;
    let Ok(mut table) = open_table(rt.alloc(), &mut disk, 4) else {
        return Err(Fail::new("the table isn't opened"));
    };
    assert_eq!(rt; table.table().entries, 2);
    let mut used = Seq::new(rt.alloc());
    for (key, sequence, value) in [(b"a", 1, b"x"), (b"b", 2, b"y")] {
        let Ok(Some(records)) = table.next_records_over(&mut disk, used) else {
            return Err(Fail::new("no block is given"));
        };
        match records.as_slice() {
            [record] => {
                assert_eq!(rt; record.key.as_slice(), key.as_slice());
                assert_eq!(rt; record.sequence, sequence);
                assert_eq!(rt; record.value.as_slice(), value.as_slice());
            }
            _ => return Err(Fail::new("the block hasn't one record")),
        }
        used = records;
    }
    assert!(rt; matches!(table.next_records(&mut disk), Ok(None)));
    assert_eq!(rt; disk.disk.bytes_read("000004.sst"), 165);
    Ok(())
}

#[test]
fn a_table_that_is_not_good_is_refused(rt: HostRuntime) -> Result<(), Fail> {
    let mut disk = disk_with_tables(rt.alloc())?;
    disk.disk.fail_at(1)?;
    let short = SstErr::Damaged {
        why: TableWhy::FooterShort,
        place: 0,
    };
    for (number, error) in [(4, SstErr::DiskFault), (3, SstErr::NoTable), (5, short)] {
        match open_table(rt.alloc(), &mut disk, number) {
            Ok(_) => return Err(Fail::new("the table is opened")),
            Err(given) => assert_eq!(rt; given, error),
        }
    }
    Ok(())
}

// A table of one record, `a` = `x` at sequence 1.
const ONE_RECORD: &[u8] =
    b"\0\x09\x01a\x01\x01\0\0\0\0\0\0x\0\0\0\0\x01\0\0\0\0\x84\xDD\x88t\0\0\0\0\x01\0\0\0\0\xC0\xF2\xA1\xB0\0\x09\x02a\x01\x01\0\0\0\0\0\0\0\x15\0\0\0\0\x01\0\0\0\06I%\xBF\x1A\x08'\x16\0\0\0\0\0\0\0\0\0\0\0\0\0\0\0\0\0\0\0\0\0\0\0\0\0\0\0\0\0\0\0\0\0\0\0\0W\xFB\x80\x8B$uG\xDB";

// Whether these are the lines of a part of the table with this number.
fn has_lines(alloc: Global, disk: &mut Untold, part: SstPart, hex: bool, wanted: &[u8]) -> bool {
    match sst_lines(alloc, disk, 4, part, hex) {
        Ok(text) => text.as_slice() == wanted,
        Err(_) => false,
    }
}

#[test]
fn the_lines_of_a_table_are_given(rt: HostRuntime) -> Result<(), Fail> {
    let alloc = rt.alloc();
    let mut memory = MemDisk::new(alloc)?;
    memory.put_file("000004.sst", ONE_RECORD)?;
    let mut disk = Untold { disk: memory };
    let good = b"good: family 0 entries 1 ranges 0\n";
    assert!(rt; has_lines(alloc, &mut disk, SstPart::Check, false, good));
    let entry = b"\"a\"@1:1 => \"x\"\n";
    assert!(rt; has_lines(alloc, &mut disk, SstPart::Scan, false, entry));
    let in_hexadecimal = b"0x61@1:1 => 0x78\n";
    assert!(rt; has_lines(alloc, &mut disk, SstPart::Scan, true, in_hexadecimal));
    assert!(rt; has_lines(alloc, &mut disk, SstPart::Properties, false, b""));
    match sst_lines(alloc, &mut disk, 5, SstPart::Scan, false) {
        Ok(_) => Err(Fail::new("there is no such table")),
        Err(error) => {
            assert_eq!(rt; error, SstErr::NoTable);
            Ok(())
        }
    }
}

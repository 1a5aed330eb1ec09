ghost use Rattle.std.specs.Prelude.{◌≡◌, ◌<◌, ◌≤◌, length, IfOk, IfSome};
ghost use Rattle.rk_bytes.specs.Model.DiskImages.{IsLeft, contents_told, Counts};
ghost use Rattle.rk_sst.specs.Errors.{disk_failed};
ghost use Rattle.rk_sst.specs.Seen.{under_family};
ghost use Rattle.rk_sst.specs.Rising.{RisesOn};
ghost use Rattle.rk_sst.specs.Opened.{Opens, IsOpen, HasLength, HasSequences, GivesNext, Steps};

use crate::records::take_block;
use crate::{Record, SstErr, TableRef};
use rk_bytes::{Bytes, Seq};
use rk_cache::{BlockCache, Status};
use rk_disk::Disk;
use rk_names::{FileName, write_name};
use std::alloc::Global;
use std::marker::Model;
use std::num::NonZeroUsize;

/// How many blocks of an open table are kept at most.
const KEPT_BLOCKS: usize = 64;

/// A good table on a disk, of which the data records are given block by block. Contracts see its number, what
/// is known of it, the number of the next data block, the last internal key that was given, and the blocks that
/// are kept.
#[derive(Drop)]
pub struct OpenTable {
    alloc: Global,
    cache: BlockCache,
    number: u64,
    table: TableRef,
    block: usize,
    last: Option<Bytes>,
}

impl Model for OpenTable {
    ghost use Rattle.std.specs.Prelude.{◌≤◌, length, IfSome};
    ghost use Rattle.rk_sst.specs.Seen.{OpenSeen};

    ghost Value = { OpenSeen };

    ghost view = { λ t. record { number = t.number; table = t.table; block = t.block; last = t.last; cache = t.cache } };

    ghost invariant = { λ t. IfSome t.last (λ key. 8 ≤ length key) };
}

/// Opens the table with this number: finds its status, for which each of its blocks is read once. At most 64
/// blocks are held at a time.
///
/// `NoTable` comes where no file has the table's name, `Damaged` or `Unsupported` where the table's status is
/// that, `DiskFault` where the disk fails, and `Memory` only where memory runs out.
pub fn open_table<D: Disk>(alloc: Global, disk: &mut D, number: u64) -> Result<OpenTable, SstErr>
    ensures table { IfSome (contents_told (D.told disk.old)) (λ files. Opens files number result) }
    ensures sequences { IfOk result HasSequences }
    ensures left { IsLeft (D.told disk.old) (D.told disk.new) }
    ensures faults { Counts (disk_failed result) (D.faults disk.old) (D.faults disk.new) }
{
    let name = write_name(alloc, &FileName::Table(number))?;
    let Some(file_len) = disk.size(name.as_str())? else {
        return Err(SstErr::NoTable);
    };
    let most_blocks = NonZeroUsize::new(KEPT_BLOCKS).unwrap();
    open_sized(alloc, disk, number, file_len, most_blocks)
}

/// Opens the table with this number, whose file has so many bytes, as `open_table` does, and holds at most so many
/// blocks at a time: what is held of its status isn't read again for its records. `NoTable` doesn't come.
pub fn open_sized<D: Disk>(
    alloc: Global,
    disk: &mut D,
    number: u64,
    file_len: u64,
    most_blocks: NonZeroUsize,
) -> Result<OpenTable, SstErr>
    requires there { IfSome (contents_told (D.told disk.old)) (HasLength number file_len) }
    ensures table { IfSome (contents_told (D.told disk.old)) (λ files. Opens files number result) }
    ensures sequences { IfOk result HasSequences }
    ensures left { IsLeft (D.told disk.old) (D.told disk.new) }
    ensures faults { Counts (disk_failed result) (D.faults disk.old) (D.faults disk.new) }
{
    let mut cache = BlockCache::new(alloc, most_blocks)?;
    match cache.read_status(disk, number, file_len)? {
        Status::Good(table) => Ok(OpenTable {
            alloc,
            cache,
            number,
            table,
            block: 0,
            last: None,
        }),
        Status::Damaged { why, place } => Err(SstErr::Damaged { why, place }),
        Status::Unsupported(what) => Err(SstErr::Unsupported(what)),
    }
}

impl OpenTable {
    /// What is known of the table.
    pub fn table(&self) -> &TableRef
        ensures { result.now ≡ self.now.table }
    {
        &self.table
    }

    /// Gives the records under this family from now on.
    pub fn set_family(&mut self, family: u32)
        ensures { self.new ≡ under_family family self.old }
    {
        self.table.family = family;
    }

    /// The records of the next data block, in their order, or `None` where all were given. Each block is read
    /// where it isn't kept. Whatever the disk tells, the internal keys of all that is given rise.
    ///
    /// `DiskFault` comes where the disk fails, and `Memory` only where memory runs out. `Damaged` and
    /// `Unsupported` come only where the table isn't as it was when it was opened. After each of these the same
    /// block is next.
    pub fn next_records<D: Disk>(&mut self, disk: &mut D) -> Result<Option<Seq<Record>>, SstErr>
        requires { IfSome (contents_told (D.told disk.old)) (IsOpen self.old) }
        ensures records { IfSome (contents_told (D.told disk.old)) (λ files. GivesNext self.old files result self.new) }
        ensures open { IfSome (contents_told (D.told disk.old)) (IsOpen self.new) }
        ensures rising { RisesOn self.old result self.new.last }
        ensures table { self.new.table ≡ self.old.table }
        ensures block { Steps self.old result self.new.block }
        ensures left { IsLeft (D.told disk.old) (D.told disk.new) }
        ensures faults { Counts (disk_failed result) (D.faults disk.old) (D.faults disk.new) }
    {
        let alloc = self.alloc;
        self.next_records_over(disk, Seq::new(alloc))
    }

    /// The same records, in the memory of these as far as that goes, which are used no more.
    pub fn next_records_over<D: Disk>(
        &mut self,
        disk: &mut D,
        used: Seq<Record>,
    ) -> Result<Option<Seq<Record>>, SstErr>
        requires { IfSome (contents_told (D.told disk.old)) (IsOpen self.old) }
        ensures records { IfSome (contents_told (D.told disk.old)) (λ files. GivesNext self.old files result self.new) }
        ensures open { IfSome (contents_told (D.told disk.old)) (IsOpen self.new) }
        ensures rising { RisesOn self.old result self.new.last }
        ensures table { self.new.table ≡ self.old.table }
        ensures block { Steps self.old result self.new.block }
        ensures left { IsLeft (D.told disk.old) (D.told disk.new) }
        ensures faults { Counts (disk_failed result) (D.faults disk.old) (D.faults disk.new) }
    {
        if self.block >= self.table.index.as_slice().len() {
            return Ok(None);
        }
        let records = take_block(
            self.alloc,
            used,
            &mut self.cache,
            disk,
            self.number,
            &self.table,
            self.block,
            &mut self.last,
        )?;
        self.block += 1;
        Ok(Some(records))
    }
}

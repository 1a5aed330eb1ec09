//! The status of a table on a disk.
ghost use Rattle.std.specs.Prelude.{◌≡◌, ◌<◌, length, OnOk, IfOk, IfSome};
ghost use Rattle.rk_bytes.specs.Model.DiskImages.{IsLeft, contents_told, Counts};
ghost use Rattle.rk_table.specs.Steps.{IsSoundStatus};
ghost use Rattle.rk_table.specs.Runs.{Follows, IsStatus, want_of, left};
ghost use Rattle.rk_cache.specs.Answers.{table_in, HoldsFor};
ghost use Rattle.rk_cache.specs.Faults.{source_failed};

use crate::{BlockCache, CacheFault, Handle, SourceErr, Status, SumKind};
use rk_disk::{Disk, read_piece};
use rk_names::{FileName, write_name};
use rk_table::{StatusRun, Want};
use std::alloc::Global;

impl BlockCache {
    /// The status of the table with this number, whose file has so many bytes. Its last bytes are read, and then
    /// each block that the status needs, where it isn't kept.
    ///
    /// `Disk` comes where the disk fails, and `Memory` only where memory runs out. Blocks that were read before
    /// are kept all the same.
    pub fn read_status<D: Disk>(
        &mut self,
        disk: &mut D,
        number: u64,
        file_len: u64,
    ) -> Result<Status, SourceErr>
        requires holds { IfSome (contents_told (D.told disk.old)) (HoldsFor self.old.kept) }
        requires len { IfSome (contents_told (D.told disk.old)) (λ files. length (table_in files number) ≡ file_len) }
        ensures status { IfSome (contents_told (D.told disk.old)) (λ files. IfOk result (λ status. IsStatus status (table_in files number))) }
        ensures top { IfOk result IsSoundStatus }
        ensures holds { IfSome (contents_told (D.told disk.old)) (HoldsFor self.new.kept) }
        ensures capacity { self.new.capacity ≡ self.old.capacity }
        ensures left { IsLeft (D.told disk.old) (D.told disk.new) }
        ensures faults { Counts (source_failed result) (D.faults disk.old) (D.faults disk.new) }
    {
        let mut run = StatusRun::new(self.alloc, file_len);
        loop {
            match run.want() {
                Want::Tail(len) => serve_tail(self.alloc, disk, number, file_len, len, &mut run)?,
                Want::Block { handle, end, sum } => {
                    self.serve_block(disk, number, handle, end, sum, &mut run)?;
                }
                Want::Nothing => return Ok(run.finish()),
            }
        }
    }

    /// Hands in the block that is wanted, or its fault.
    fn serve_block<D: Disk>(
        &mut self,
        disk: &mut D,
        number: u64,
        handle: Handle,
        end: u64,
        sum: SumKind,
        run: &mut StatusRun,
    ) -> Result<(), SourceErr>
        requires holds { IfSome (contents_told (D.told disk.old)) (HoldsFor self.old.kept) }
        requires wanted { want_of run.old ≡ Want.Block handle end sum }
        ensures follows { IfSome (contents_told (D.told disk.old)) (λ files. Follows run.old (table_in files number) → OnOk result (Follows run.new (table_in files number))) }
        ensures less { OnOk result (left run.new < left run.old) }
        ensures holds { IfSome (contents_told (D.told disk.old)) (HoldsFor self.new.kept) }
        ensures capacity { self.new.capacity ≡ self.old.capacity }
        ensures left { IsLeft (D.told disk.old) (D.told disk.new) }
        ensures faults { Counts (source_failed result) (D.faults disk.old) (D.faults disk.new) }
    {
        match self.read_block(disk, number, end, handle, sum) {
            Ok(block) => {
                run.give_block(block)?;
                Ok(())
            }
            Err(CacheFault::Trailer(fault)) => {
                run.give_fault(fault);
                Ok(())
            }
            Err(CacheFault::Disk) => Err(SourceErr::Disk),
            Err(CacheFault::Memory) => Err(SourceErr::Memory),
        }
    }
}

/// Hands in the last bytes of a table's file of this length, of which at most so many are wanted.
fn serve_tail<D: Disk>(
    alloc: Global,
    disk: &mut D,
    number: u64,
    file_len: u64,
    most: u64,
    run: &mut StatusRun,
) -> Result<(), SourceErr>
    requires wanted { want_of run.old ≡ Want.Tail most }
    ensures follows { IfSome (contents_told (D.told disk.old)) (λ files. length (table_in files number) ≡ file_len → Follows run.old (table_in files number) → OnOk result (Follows run.new (table_in files number))) }
    ensures less { OnOk result (left run.new < left run.old) }
    ensures left { IsLeft (D.told disk.old) (D.told disk.new) }
    ensures faults { Counts (source_failed result) (D.faults disk.old) (D.faults disk.new) }
{
    let name = write_name(alloc, &FileName::Table(number))?;
    let mut bytes = vec![in alloc; 0; most as usize]?;
    let at = file_len.saturating_sub(most);
    let got = read_piece(disk, name.as_str(), at, &mut bytes)?;
    run.give_tail(&bytes[..got])?;
    Ok(())
}

//! Tables that were read and wait for a state.
ghost use Rattle.std.specs.Prelude.{◌≡◌, true, Option, IfSome, OnOk};
ghost use Rattle.rk_bytes.specs.Model.DiskImages.{Directory};
ghost use Rattle.rk_open.specs.Reads.{AreKept, IsRead, unlisted};
ghost use Rattle.rk_open.specs.Tables.{listed_of};

use crate::listed::ListedTable;
use crate::read::ReadTable;
use rk_bytes::Memory;
use rk_bytes::model::FileMeta;
use rk_version::copy_file;
use std::alloc::Global;
use std::collections::BTreeMap;

/// A table, and the file that it was read of, as it was stated.
#[derive(Debug, Drop)]
struct KeptTable {
    file: FileMeta,
    table: ReadTable,
}

/// Tables that were read, at most one with each number.
#[derive(Debug, Drop)]
pub(crate) struct KeptTables {
    by_number: BTreeMap<u64, KeptTable>,
}

impl KeptTables {
    /// None yet.
    pub(crate) fn new(alloc: Global) -> KeptTables
        ensures { (disk : Option Directory) → AreKept disk result }
    {
        KeptTables {
            by_number: BTreeMap::new(alloc),
        }
    }

    /// Keeps the table that was read of the file, in place of one with the same number. `Memory` comes only where
    /// memory runs out.
    pub(crate) fn keep(
        &mut self,
        alloc: Global,
        file: &FileMeta,
        table: ReadTable,
    ) -> Result<(), Memory>
        ensures { (disk : Option Directory) → AreKept disk self.old → IsRead disk (unlisted file.now) table → OnOk result (AreKept disk self.new) }
    {
        let file = copy_file(alloc, file)?;
        self.by_number
            .insert(file.number, KeptTable { file, table })?;
        Ok(())
    }

    /// Takes out the table with the number of the listed one, and gives it if the two files are stated alike.
    pub(crate) fn take(&mut self, listed: &ListedTable<'_>) -> Option<ReadTable>
        ensures table { (disk : Option Directory) → AreKept disk self.old → IfSome result (IsRead disk (listed_of listed.now)) }
        ensures kept { (disk : Option Directory) → AreKept disk self.old → AreKept disk self.new }
    {
        let KeptTable { file, table } = self.by_number.remove(&listed.file.number)?;
        if !is_alike(&file, listed.file) {
            return None;
        }
        Some(table.under_family(listed.family))
    }
}

/// Whether the two are stated to be the same file, with the same size and bounds.
pub(crate) fn is_alike(one: &FileMeta, other: &FileMeta) -> bool
    ensures number { result ≡ true → one.now.number ≡ other.now.number }
    ensures size { result ≡ true → one.now.size ≡ other.now.size }
    ensures smallest { result ≡ true → one.now.smallest ≡ other.now.smallest }
    ensures largest { result ≡ true → one.now.largest ≡ other.now.largest }
{
    if one.number != other.number || one.size != other.size {
        return false;
    }
    if one.smallest.as_slice() != other.smallest.as_slice() {
        return false;
    }
    one.largest.as_slice() == other.largest.as_slice()
}

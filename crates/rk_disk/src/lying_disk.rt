ghost use Rattle.std.specs.Prelude.{◌≡◌, ◌≤◌, ◌++◌, [], length, drop, None, Ok, IfOk, OnOk, OnErr, IsErrOf, unwrap_or};
ghost use Rattle.std.specs.FinMap as map;
ghost use Rattle.rk_bytes.specs.Model.DiskImages.{part_of_file};
ghost use Rattle.rk_disk.specs.InMemory.{no_files, with_file};

use crate::files::Files;
use crate::{Disk, DiskErr};
use rk_bytes::{Memory, Seq, Text};
use std::alloc::Global;
use std::marker::Model;

/// A disk in memory that may say another size of a file than its bytes have. It tells nothing of its
/// contents, and never fails.
#[derive(Debug, Drop)]
pub struct LyingDisk {
    /// Beside each file, the size that is said.
    files: Files,
}

impl Model for LyingDisk {
    ghost use Rattle.rk_disk.specs.InMemory.{NumberedFiles, coded_files};

    ghost Value = { NumberedFiles };

    ghost coded = { coded_files };

    ghost view = { λ d. d.files };
}

impl LyingDisk {
    /// No file. Takes no memory yet.
    pub fn new(alloc: Global) -> LyingDisk
        ensures { result ≡ no_files }
    {
        LyingDisk {
            files: Files::new(alloc),
        }
    }

    /// Sets the size that `size` says of a file, and the bytes that `read` gives of it.
    pub fn say(&mut self, name: &str, size: u64, bytes: &[u8]) -> Result<(), Memory>
        ensures ok { OnOk result (self.new ≡ with_file name.now bytes.now size self.old) }
        ensures err { OnErr result (self.new ≡ self.old) }
    {
        self.files.put(name, bytes, size)
    }
}

impl Disk for LyingDisk {
    ghost told = { λ _. None };

    ghost faults = { λ _. 0 };

    /// `Memory` where there is none for the names.
    fn names(&mut self, alloc: Global) -> Result<Seq<Text>, DiskErr>
        ensures names { IfOk result (λ names. names ≡ map.keys self.old.contents) }
        ensures failed { ¬ IsErrOf result DiskErr.Failed }
        ensures same { self.new ≡ self.old }
    {
        let names = self.files.names(alloc)?;
        Ok(names)
    }

    /// The size that was said. Takes no memory.
    fn size(&mut self, name: &str) -> Result<Option<u64>, DiskErr>
        ensures size { result ≡ Ok (map.get self.old.numbers name.now) }
        ensures same { self.new ≡ self.old }
    {
        Ok(self.files.number(name))
    }

    /// Takes no memory.
    fn read(&mut self, name: &str, at: u64, buf: &mut [u8]) -> Result<usize, DiskErr>
        ensures within { IfOk result (λ n. n ≤ length buf.old) }
        ensures part { let part = part_of_file at (length buf.old) (unwrap_or (map.get self.old.contents name.now) []) in
            (result ≡ Ok (length part)) × (buf.new ≡ part ++ drop (length part) buf.old) }
        ensures same { self.new ≡ self.old }
    {
        Ok(self.files.read(name, at, buf))
    }
}

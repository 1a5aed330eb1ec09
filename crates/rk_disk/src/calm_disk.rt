ghost use Rattle.std.specs.Prelude.{◌≡◌, ◌^◌, ◌<◌, ◌≤◌, ◌++◌, [], length, drop, Some, Ok, IfOk, IfSome, OnOk, OnErr, IsErrOf, unwrap_or, option_map};
ghost use Rattle.std.specs.Option.{option_copied};
ghost use Rattle.std.specs.FinMap as map;
ghost use Rattle.rk_bytes.specs.Model.DiskImages.{told_at_rest, part_of_file};

use crate::files::Files;
use crate::{Disk, DiskErr};
use rk_bytes::{Memory, Seq, Text};
use std::alloc::Global;
use std::marker::Model;

/// A disk in memory that tells its contents and never fails: its count of faults is always 0. Contracts see its
/// files by name.
#[derive(Debug, Drop)]
pub struct CalmDisk {
    /// The number beside each file is 0.
    files: Files,
}

impl Model for CalmDisk {
    ghost use Rattle.rk_bytes.specs.Model.DiskImages.{Directory};
    ghost use Rattle.rk_disk.specs.InMemory.{coded_directory};

    ghost Value = { Directory };

    ghost coded = { coded_directory };

    ghost view = { λ d. d.files.contents };
}

impl CalmDisk {
    /// No file. `Memory` comes only where memory runs out.
    pub fn new(alloc: Global) -> Result<CalmDisk, Memory>
        ensures { IfOk result (λ disk. disk ≡ map.empty) }
    {
        Ok(CalmDisk {
            files: Files::new(alloc),
        })
    }

    /// Makes the file, or replaces it. Where memory runs out, it changes nothing.
    pub fn put_file(&mut self, name: &str, bytes: &[u8]) -> Result<(), Memory>
        ensures ok { OnOk result (self.new ≡ map.insert self.old name.now bytes.now) }
        ensures err { OnErr result (self.new ≡ self.old) }
    {
        self.files.put(name, bytes, 0)
    }

    /// The bytes of a file, or `None` where there is no file of that name. Takes no memory.
    pub fn file(&self, name: &str) -> Option<&[u8]>
        ensures { option_copied result ≡ map.get self.now name.now }
    {
        self.files.get(name)
    }
}

impl Disk for CalmDisk {
    ghost told = { λ d. Some (told_at_rest d) };

    ghost faults = { λ _. 0 };

    /// `Memory` where there is none for the names.
    fn names(&mut self, alloc: Global) -> Result<Seq<Text>, DiskErr>
        ensures names { IfOk result (λ names. names ≡ map.keys self.old) }
        ensures failed { ¬ IsErrOf result DiskErr.Failed }
        ensures same { self.new ≡ self.old }
    {
        let names = self.files.names(alloc)?;
        Ok(names)
    }

    /// Takes no memory.
    fn size(&mut self, name: &str) -> Result<Option<u64>, DiskErr>
        ensures size { result ≡ Ok (option_map length (map.get self.old name.now)) }
        ensures short { IfSome (map.get self.old name.now) (λ bytes. length bytes < 2 ^ 64) }
        ensures same { self.new ≡ self.old }
    {
        Ok(self.files.size(name))
    }

    /// Takes no memory.
    fn read(&mut self, name: &str, at: u64, buf: &mut [u8]) -> Result<usize, DiskErr>
        ensures within { IfOk result (λ n. n ≤ length buf.old) }
        ensures part { let part = part_of_file at (length buf.old) (unwrap_or (map.get self.old name.now) []) in
            (result ≡ Ok (length part)) × (buf.new ≡ part ++ drop (length part) buf.old) }
        ensures short { IfSome (map.get self.old name.now) (λ bytes. length bytes < 2 ^ 64) }
        ensures same { self.new ≡ self.old }
    {
        Ok(self.files.read(name, at, buf))
    }
}

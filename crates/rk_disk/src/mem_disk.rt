ghost use Rattle.std.specs.Prelude.{◌≡◌, ◌↔◌, ◌^◌, ◌<◌, ◌≤◌, ◌++◌, ◌||◌, true, [], ◌∷◌, length, drop, Some, IfOk, IfSome, OnOk, OnErr, IsErrOf, IsTrue, unwrap_or, option_map};
ghost use Rattle.std.specs.Option.{option_copied};
ghost use Rattle.std.specs.FinMap as map;
ghost use Rattle.rk_bytes.specs.Model.DiskImages.{told_at_rest, part_of_file, Counts};
ghost use Rattle.rk_disk.specs.Faults.{disk_failed};
ghost use Rattle.rk_disk.specs.CallPlan.{fails_next, with_failing};
ghost use Rattle.rk_disk.specs.InMemory.{new_disk, refuses, after_reading, after_read};

use crate::files::Files;
use crate::plan::Plan;
use crate::{Disk, DiskErr};
use rk_bytes::{Memory, Seq, Text};
use std::alloc::Global;
use std::marker::Model;

/// A disk in memory, which tells its contents. The calls that are set to fail do, and no others.
#[derive(Debug, Drop)]
pub struct MemDisk {
    alloc: Global,
    /// Beside each file, how many bytes were read of it.
    files: Files,
    /// Names, and from which offset on their reads are to fail.
    refused: Vec<(Text, u64)>,
    plan: Plan,
}

impl Model for MemDisk {
    ghost use Rattle.rk_disk.specs.InMemory.{DiskInMemory, coded_disk};

    ghost Value = { DiskInMemory };

    ghost coded = { coded_disk };

    ghost view = { λ d. record { files = d.files.contents; bytes_read = d.files.numbers; refused = d.refused.items; plan = d.plan } };
}

impl MemDisk {
    /// No file, no call made, and none set to fail.
    pub fn new(alloc: Global) -> Result<MemDisk, Memory>
        ensures { IfOk result (λ disk. disk ≡ new_disk) }
    {
        Ok(MemDisk {
            alloc,
            files: Files::new(alloc),
            refused: Vec::new(alloc),
            plan: Plan::new(alloc),
        })
    }

    /// Makes the file, or replaces it. This is no call of the disk, and how many bytes were read of
    /// that name stays.
    pub fn put_file(&mut self, name: &str, bytes: &[u8]) -> Result<(), Memory>
        ensures ok { OnOk result (self.new ≡ record self.old { files = map.insert self.old.files name.now bytes.now; bytes_read = map.insert self.old.bytes_read name.now (unwrap_or (map.get self.old.bytes_read name.now) 0) }) }
        ensures err { OnErr result (self.new ≡ self.old) }
    {
        let bytes_read = self.bytes_read(name);
        self.files.put(name, bytes, bytes_read)
    }

    /// Makes the call with this number, counted from 1 over the calls of `Disk`, answer `Failed`
    /// and change nothing. The number of a call that was made already is of no effect.
    pub fn fail_at(&mut self, call: u64) -> Result<(), Memory>
        ensures ok { OnOk result (self.new ≡ record self.old { plan = with_failing call self.old.plan }) }
        ensures err { OnErr result (self.new ≡ self.old) }
    {
        self.plan.fail_at(call)
    }

    /// Makes each `read` of that name at or past `at` answer `Failed` and change nothing.
    pub fn fail_from(&mut self, name: &str, at: u64) -> Result<(), Memory>
        ensures ok { OnOk result (self.new ≡ record self.old { refused = self.old.refused ++ (name.now, at) ∷ [] }) }
        ensures err { OnErr result (self.new ≡ self.old) }
    {
        let name = Text::copy_of(self.alloc, name)?;
        self.refused.push((name, at))?;
        Ok(())
    }

    /// How many calls of `Disk` were made. It stands still at the last value of a `u64`.
    pub fn calls(&self) -> u64
        ensures { result ≡ self.now.plan.calls }
    {
        self.plan.calls()
    }

    /// The sum of the numbers that `read` has answered with `Ok` for that name. It stands still at
    /// the last value of a `u64`.
    pub fn bytes_read(&self, name: &str) -> u64
        ensures { result ≡ unwrap_or (map.get self.now.bytes_read name.now) 0 }
    {
        self.files.number(name).unwrap_or(0)
    }

    /// The bytes of a file, or `None` where there is no file of that name. This is no call of the
    /// disk.
    pub fn file(&self, name: &str) -> Option<&[u8]>
        ensures { option_copied result ≡ map.get self.now.files name.now }
    {
        self.files.get(name)
    }

    // Whether the next call, a read of that name at that offset, is set to fail.
    fn fails_read(&self, name: &str, at: u64) -> bool
        ensures { result ≡ (fails_next self.now.plan || refuses name.now at self.now.refused) }
    {
        self.plan.fails_next() || refuses(&self.refused, name, at)
    }
}

fn refuses(refused: &[(Text, u64)], name: &str, at: u64) -> bool
    ensures { result ≡ refuses name.now at refused.now }
{
    refused
        .iter()
        .any(|(refused, from)| refused.as_str() == name && *from <= at)
}

impl Disk for MemDisk {
    ghost told = { λ d. Some (told_at_rest d.files) };

    ghost faults = { λ d. d.plan.failed };

    /// `Memory` where there is none for the names.
    fn names(&mut self, alloc: Global) -> Result<Seq<Text>, DiskErr>
        ensures names { IfOk result (λ names. names ≡ map.keys self.old.files) }
        ensures exactly { IsErrOf result DiskErr.Failed ↔ IsTrue (fails_next self.old.plan) }
        ensures counted { self.new ≡ after_reading (disk_failed result) self.old }
        ensures faults { Counts (disk_failed result) self.old.plan.failed self.new.plan.failed }
    {
        let fails = self.plan.fails_next();
        self.plan.count_call(fails);
        if fails {
            return Err(DiskErr::Failed);
        }
        let names = self.files.names(alloc)?;
        Ok(names)
    }

    /// Takes no memory.
    fn size(&mut self, name: &str) -> Result<Option<u64>, DiskErr>
        ensures size { IfOk result (λ size. size ≡ option_map length (map.get self.old.files name.now)) }
        ensures short { IfOk result (λ _. IfSome (map.get self.old.files name.now) (λ bytes. length bytes < 2 ^ 64)) }
        ensures exactly { IsErrOf result DiskErr.Failed ↔ IsTrue (fails_next self.old.plan) }
        ensures memory { ¬ IsErrOf result DiskErr.Memory }
        ensures counted { self.new ≡ after_reading (disk_failed result) self.old }
        ensures faults { Counts (disk_failed result) self.old.plan.failed self.new.plan.failed }
    {
        let fails = self.plan.fails_next();
        self.plan.count_call(fails);
        if fails {
            return Err(DiskErr::Failed);
        }
        Ok(self.files.size(name))
    }

    /// Takes no memory. A call that fails leaves the buffer.
    fn read(&mut self, name: &str, at: u64, buf: &mut [u8]) -> Result<usize, DiskErr>
        ensures within { IfOk result (λ n. n ≤ length buf.old) }
        ensures part { IfOk result (λ n.
            let part = part_of_file at (length buf.old) (unwrap_or (map.get self.old.files name.now) []) in
            (n ≡ length part) × (buf.new ≡ part ++ drop n buf.old)) }
        ensures short { IfOk result (λ _. IfSome (map.get self.old.files name.now) (λ bytes. length bytes < 2 ^ 64)) }
        ensures failed { OnErr result (buf.new ≡ buf.old) }
        ensures exactly { IsErrOf result DiskErr.Failed ↔ IsTrue (fails_next self.old.plan || refuses name.now at self.old.refused) }
        ensures memory { ¬ IsErrOf result DiskErr.Memory }
        ensures counted { IfOk result (λ n. self.new ≡ after_read name.now n self.old) }
        ensures refused { OnErr result (self.new ≡ after_reading true self.old) }
        ensures faults { Counts (disk_failed result) self.old.plan.failed self.new.plan.failed }
    {
        let fails = self.fails_read(name, at);
        self.plan.count_call(fails);
        if fails {
            return Err(DiskErr::Failed);
        }
        let count = self.files.read(name, at, buf);
        let sum = self.bytes_read(name).saturating_add(count as u64);
        self.files.set_number(name, sum);
        Ok(count)
    }
}

ghost use Rattle.std.specs.Prelude.{◌≡◌, ℕ, ◌+◌, ◌^◌, ◌<◌, ◌≤◌, ◌++◌, List, length, drop, Option, [], IfOk, IfSome, unwrap_or, option_map, IsErrOf};
ghost use Rattle.std.specs.FinMap as map;
ghost use Rattle.rk_bytes.specs.Model.DiskImages.{Told, IsLeft, contents_told, part_of_file, Counts};
ghost use Rattle.rk_disk.specs.Faults.{disk_failed};

use rk_bytes::{Memory, Seq, Text};
use std::alloc::{AllocError, Global};

/// Why a call of a disk gives nothing.
#[derive(Clone, Copy, Debug, PartialEq, Eq)]
pub enum DiskErr {
    /// The disk failed, and counted it.
    Failed,
    /// Memory ran out.
    Memory,
}

impl From<Memory> for DiskErr {
    ghost use Rattle.rk_disk.specs.declared.disk.DiskErr.TheVariants as errors;

    ghost from_gives = { λ _ e. e ≡ errors.Memory };

    fn from(_: Memory) -> DiskErr {
        DiskErr::Memory
    }
}

impl From<AllocError> for DiskErr {
    ghost use Rattle.rk_disk.specs.declared.disk.DiskErr.TheVariants as errors;

    ghost from_gives = { λ _ e. e ≡ errors.Memory };

    fn from(_: AllocError) -> DiskErr {
        DiskErr::Memory
    }
}

/// One directory, which each call names a file of.
///
/// A disk may tell the states that it was in. Whether it does never changes. What is told leads to
/// its contents, the files by name.
pub trait Disk {
    /// The states that the disk was in, where it tells them.
    ghost told: { Self → Option Told };

    /// How many calls have failed. It stands still at the last value of a `u64`.
    ghost faults: { Self → ℕ };

    /// The names of all files, in rising byte order.
    fn names(&mut self, alloc: Global) -> Result<Seq<Text>, DiskErr>
        ensures names { IfOk result (λ names. IfSome (contents_told (told self.old)) (λ files. names ≡ map.keys files)) }
        ensures left { IsLeft (told self.old) (told self.new) }
        ensures faults { Counts (disk_failed result) (faults self.old) (faults self.new) };

    /// The length of a file, or `None` where there is no file of that name.
    fn size(&mut self, name: &str) -> Result<Option<u64>, DiskErr>
        ensures size { IfOk result (λ size. IfSome (contents_told (told self.old)) (λ files. size ≡ option_map length (map.get files name.now))) }
        ensures short { IfOk result (λ _. IfSome (contents_told (told self.old)) (λ files. IfSome (map.get files name.now) (λ bytes. length bytes < 2 ^ 64))) }
        ensures left { IsLeft (told self.old) (told self.new) }
        ensures faults { Counts (disk_failed result) (faults self.old) (faults self.new) };

    /// Fills the front of the buffer with the file's bytes from `at` on, as far as both go, and says
    /// how many these are: none past the file's end, or where there is no file of that name.
    fn read(&mut self, name: &str, at: u64, buf: &mut [u8]) -> Result<usize, DiskErr>
        ensures within { IfOk result (λ n. n ≤ length buf.old) }
        ensures part { IfOk result (λ n. IfSome (contents_told (told self.old)) (λ files.
            let part = part_of_file at (length buf.old) (unwrap_or (map.get files name.now) []) in
            (n ≡ length part) × (buf.new ≡ part ++ drop n buf.old))) }
        ensures short { IfOk result (λ _. IfSome (contents_told (told self.old)) (λ files. IfSome (map.get files name.now) (λ bytes. length bytes < 2 ^ 64))) }
        ensures memory { IsErrOf result DiskErr.Memory → buf.new ≡ buf.old }
        ensures left { IsLeft (told self.old) (told self.new) }
        ensures faults { Counts (disk_failed result) (faults self.old) (faults self.new) };
}

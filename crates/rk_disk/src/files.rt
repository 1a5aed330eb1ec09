ghost use Rattle.std.specs.Prelude.{◌≡◌, ◌^◌, ◌<◌, ◌++◌, [], length, drop, IfOk, IfSome, OnOk, OnErr, unwrap_or};
ghost use Rattle.std.specs.Option.{option_copied, option_map};
ghost use Rattle.std.specs.FinMap as map;
ghost use Rattle.rk_bytes.specs.Model.DiskImages.{part_of_file};
ghost use Rattle.rk_disk.specs.InMemory.{no_files, with_file, with_number};

use rk_bytes::{Memory, Seq, Text};
use std::alloc::Global;
use std::collections::BTreeMap;
use std::marker::Model;

/// A file's bytes, and a number that is kept beside them.
#[derive(Debug, Drop)]
struct Entry {
    bytes: Vec<u8>,
    number: u64,
}

/// Files in memory by name, each with a number beside it.
#[derive(Debug, Drop)]
pub(crate) struct Files {
    alloc: Global,
    by_name: BTreeMap<String, Entry>,
}

impl Model for Files {
    ghost use Rattle.rk_disk.specs.InMemory.{NumberedFiles, coded_files};
    ghost use Rattle.rk_disk.specs.Named.{parts_by_name};

    ghost Value = { NumberedFiles };

    ghost coded = { coded_files };

    ghost view = { λ f. record { contents = parts_by_name (λ e. e.bytes.items) f.by_name.entries; numbers = parts_by_name (λ e. e.number) f.by_name.entries } };
}

impl Files {
    pub(crate) fn new(alloc: Global) -> Files
        ensures { result ≡ no_files }
    {
        Files {
            alloc,
            by_name: BTreeMap::new(alloc),
        }
    }

    /// The names of all files, in rising byte order.
    pub(crate) fn names(&self, alloc: Global) -> Result<Seq<Text>, Memory>
        ensures { IfOk result (λ names. names ≡ map.keys self.now.contents) }
    {
        let mut names = Seq::new(alloc);
        for name in self.by_name.keys() {
            names.push(Text::copy_of(alloc, name.as_str())?)?;
        }
        Ok(names)
    }

    /// The bytes of a file, or `None` where there is no file of that name.
    pub(crate) fn get(&self, name: &str) -> Option<&[u8]>
        ensures { option_copied result ≡ map.get self.now.contents name.now }
    {
        match self.by_name.get(name) {
            Some(entry) => Some(entry.bytes.as_slice()),
            None => None,
        }
    }

    /// The number beside a file, or `None` where there is no file of that name.
    pub(crate) fn number(&self, name: &str) -> Option<u64>
        ensures { result ≡ map.get self.now.numbers name.now }
    {
        match self.by_name.get(name) {
            Some(entry) => Some(entry.number),
            None => None,
        }
    }

    /// The length of a file, or `None` where there is no file of that name.
    pub(crate) fn size(&self, name: &str) -> Option<u64>
        ensures size { result ≡ option_map length (map.get self.now.contents name.now) }
        ensures short { IfSome (map.get self.now.contents name.now) (λ bytes. length bytes < 2 ^ 64) }
    {
        match self.get(name) {
            Some(bytes) => Some(bytes.len() as u64),
            None => None,
        }
    }

    /// Fills the front of the buffer with the file's bytes from `at` on, as far as both go, and
    /// says how many these are.
    pub(crate) fn read(&self, name: &str, at: u64, buf: &mut [u8]) -> usize
        ensures count { result ≡ length (part_of_file at (length buf.old) (unwrap_or (map.get self.now.contents name.now) [])) }
        ensures part { buf.new ≡ part_of_file at (length buf.old) (unwrap_or (map.get self.now.contents name.now) []) ++ drop result buf.old }
        ensures short { IfSome (map.get self.now.contents name.now) (λ bytes. length bytes < 2 ^ 64) }
    {
        match self.get(name) {
            Some(bytes) => copy_part(bytes, at, buf),
            None => 0,
        }
    }

    /// Makes the file, or replaces it, with that number beside it. An `Err` changes nothing.
    pub(crate) fn put(&mut self, name: &str, bytes: &[u8], number: u64) -> Result<(), Memory>
        ensures ok { OnOk result (self.new ≡ with_file name.now bytes.now number self.old) }
        ensures err { OnErr result (self.new ≡ self.old) }
    {
        let name = String::from_str(self.alloc, name)?;
        let bytes = Vec::from_slice(self.alloc, bytes)?;
        self.by_name.insert(name, Entry { bytes, number })?;
        Ok(())
    }

    /// Puts another number beside a file, where there is one of that name.
    pub(crate) fn set_number(&mut self, name: &str, number: u64)
        ensures contents { self.new.contents ≡ self.old.contents }
        ensures numbers { self.new.numbers ≡ with_number name.now number self.old.numbers }
    {
        if let Some(entry) = self.by_name.get_mut(name) {
            entry.number = number;
        }
    }
}

fn copy_part(bytes: &[u8], at: u64, buf: &mut [u8]) -> usize
    ensures count { result ≡ length (part_of_file at (length buf.old) bytes.now) }
    ensures part { buf.new ≡ part_of_file at (length buf.old) bytes.now ++ drop result buf.old }
{
    if at >= bytes.len() as u64 {
        return 0;
    }
    let rest = &bytes[at as usize..];
    let count = rest.len().min(buf.len());
    buf[..count].copy_from_slice(&rest[..count]);
    count
}

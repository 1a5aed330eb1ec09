ghost use Rattle.std.specs.Prelude.{◌≡◌, ◌≢◌, ◌<◌, ◌≤◌, None, Ok, IfOk, IfErr, length, map, take, string_bytes, IsSorted};
ghost use Rattle.std.specs.IoError.{error_kind};
ghost use Rattle.std.specs.Io.KnownBytes.{Consumes, IsAtEnd};
ghost use Rattle.rk_bytes.specs.Model.DiskImages.{Counts};
ghost use Rattle.rk_disk.specs.Faults.{disk_failed};

use rk_bytes::{Memory, Seq, Text};
use rk_disk::{Disk, DiskErr};
use std::alloc::Global;
use std::fs::{File, Metadata};
use std::io::{ErrorKind, Read, Seek, SeekFrom};
use std::marker::Model;
use std::path::{Path, PathBuf};
use std::rt::Files;
use std::{fs, io};

/// A folder of the system as a disk: its files, and those of its subfolder `lost` as `lost/NAME`.
/// It tells no contents. It keeps the last file that was read open, and a folder that isn't there is a
/// failure of each call. Contracts see the folder's path and the count of its failures.
#[derive(Drop)]
pub struct FolderDisk<'r, R: Files> {
    rt: &'r R,
    alloc: Global,
    path: PathBuf,
    opened: Option<Opened<R::File>>,
    failures: u64,
}

impl<'r, R: Files> Model for FolderDisk<'r, R> {
    ghost use Rattle.std.specs.Path.{path_buf_bytes};
    ghost use Rattle.rk_folder.specs.FolderDisk.{Folder};

    ghost Value = { Folder };

    ghost view = { λ disk. record { path = path_buf_bytes disk.path; failures = disk.failures } };
}

impl<'r, R: Files> FolderDisk<'r, R> {
    /// The folder at the path. Nothing is asked of the system yet, and the path is copied: `Memory`
    /// comes where there is none for it.
    pub fn new(rt: &'r R, alloc: Global, path: &str) -> Result<FolderDisk<'r, R>, Memory>
        ensures { IfOk result (λ disk. disk ≡ record { path = path.now; failures = 0 }) }
    {
        Ok(FolderDisk {
            rt,
            alloc,
            path: PathBuf::from_str(alloc, path)?,
            opened: None,
            failures: 0,
        })
    }

    // The answer to the caller. A failure of the system is counted.
    fn counted<T>(&mut self, answer: io::Result<T>) -> Result<T, DiskErr>
        ensures value { IfOk result (λ value. answer ≡ Ok value) }
        ensures failed { IfErr result (λ error. error ≡ DiskErr.Failed) }
        ensures count { Counts (disk_failed result) self.old.failures self.new.failures }
        ensures path { self.new.path ≡ self.old.path }
    {
        match answer {
            Ok(value) => Ok(value),
            Err(_) => {
                self.failures = self.failures.saturating_add(1);
                Err(DiskErr::Failed)
            }
        }
    }

    // What the system says of the path, or `None` where there is nothing.
    fn metadata(&self, path: Path<'_>) -> io::Result<Option<Metadata>>
        ensures { IfErr result (λ error. error_kind error ≢ ErrorKind.NotFound) }
    {
        match fs::metadata(self.rt, path) {
            Ok(metadata) => Ok(Some(metadata)),
            Err(error) if error.kind() == ErrorKind::NotFound => Ok(None),
            Err(error) => Err(error),
        }
    }

    // The length of the regular file at the path, also at a link's end, or `None` where there is none.
    fn length_at(&self, path: Path<'_>) -> io::Result<Option<u64>>
        ensures { IfErr result (λ error. error_kind error ≢ ErrorKind.NotFound) }
    {
        match self.metadata(path)? {
            Some(metadata) if metadata.is_file() => Ok(Some(metadata.len())),
            _ => Ok(None),
        }
    }

    // The path of the file of that name, or `None` where the name leads to another folder than `lost`.
    fn path_of(&self, name: &str) -> Result<Option<PathBuf>, Memory> {
        if name.strip_prefix("lost/").unwrap_or(name).contains('/') {
            return Ok(None);
        }
        Ok(Some(self.path.join(self.alloc, name)?))
    }

    // An error where the folder itself isn't there.
    fn check_folder(&self) -> io::Result<()> {
        if fs::metadata(self.rt, self.path.as_path())?.is_dir() {
            Ok(())
        } else {
            Err(io::Error::from(ErrorKind::NotADirectory))
        }
    }

    // The length of the regular file of that path, or `None` where the folder has none there.
    fn length_in_folder(&self, path: Option<&PathBuf>) -> io::Result<Option<u64>> {
        if let Some(path) = path {
            if let Some(length) = self.length_at(path.as_path())? {
                return Ok(Some(length));
            }
        }
        self.check_folder()?;
        Ok(None)
    }

    // The regular file of that path, or `None` where the folder has none there.
    fn open(&self, path: Option<&PathBuf>) -> io::Result<Option<R::File>> {
        let found = self.length_in_folder(path)?.is_some();
        match path {
            Some(path) if found => Ok(Some(File::open(self.rt, path.as_path())?)),
            _ => Ok(None),
        }
    }

    // The file of that name, opened now or before, or `None` where there is none.
    fn opened(&mut self, name: &str) -> Result<Option<Opened<R::File>>, DiskErr>
        ensures faults { Counts (disk_failed result) self.old.failures self.new.failures }
    {
        if let Some(opened) = self.opened.take() {
            if opened.name.as_str() == name {
                return Ok(Some(opened));
            }
        }
        let path = self.path_of(name)?;
        let name = Text::copy_of(self.alloc, name)?;
        let answer = self.open(path.as_ref());
        let file = self.counted(answer)?;
        Ok(file.map(|file| Opened {
            name,
            file,
            place: 0,
        }))
    }

    fn all_names(&self) -> io::Result<Vec<String>>
        ensures { IfOk result (λ names. IsSorted ⟦<String as Ord>⟧.cmp names.items) }
    {
        let mut names = Vec::new(self.alloc);
        self.list(self.path.as_path(), "", &mut names)?;
        let lost = self.path.join(self.alloc, "lost")?;
        match self.metadata(lost.as_path())? {
            Some(metadata) if metadata.is_dir() => {
                self.list(lost.as_path(), "lost/", &mut names)?;
            }
            _ => {}
        }
        names.sort()?;
        Ok(names)
    }

    // Puts the names of the files of one folder at the end, each behind the prefix.
    fn list(&self, folder: Path<'_>, prefix: &str, names: &mut Vec<String>) -> io::Result<()> {
        for entry in fs::read_dir(&(self.rt, self.alloc), folder)? {
            let entry = entry?;
            if self.length_at(entry.path())?.is_some() {
                let name = entry.file_name();
                names.push(format!(in self.alloc; "{prefix}{name}")?)?;
            }
        }
        Ok(())
    }
}

impl<'r, R: Files> Disk for FolderDisk<'r, R> {
    ghost told = { λ _. None };

    ghost faults = { λ disk. disk.failures };

    fn names(&mut self, alloc: Global) -> Result<Seq<Text>, DiskErr> {
        match self.all_names() {
            // The names that the system gives are kept in the program's memory.
            Err(error) if error.kind() == ErrorKind::OutOfMemory => Err(DiskErr::Memory),
            answer => {
                let names = self.counted(answer)?;
                Ok(texts(alloc, &names)?)
            }
        }
    }

    fn size(&mut self, name: &str) -> Result<Option<u64>, DiskErr> {
        let path = self.path_of(name)?;
        let answer = self.length_in_folder(path.as_ref());
        self.counted(answer)
    }

    fn read(&mut self, name: &str, at: u64, buf: &mut [u8]) -> Result<usize, DiskErr> {
        let Some(mut opened) = self.opened(name)? else {
            return Ok(0);
        };
        let answer = opened.read(at, buf);
        let n = self.counted(answer)?;
        self.opened = Some(opened);
        Ok(n)
    }
}

// A file that was opened to be read, its name, and how far it was read.
#[derive(Drop)]
struct Opened<F> {
    name: Text,
    file: F,
    place: u64,
}

impl<F: Read + Seek> Opened<F> {
    // Fills the front of the buffer with the bytes from `at` on, and says how many these are. The place
    // isn't known after an `Err`.
    fn read(&mut self, at: u64, buf: &mut [u8]) -> io::Result<usize>
        ensures { IfOk result (λ n. n ≤ length buf.old) }
    {
        // The system has no place past this one.
        if at > i64::MAX as u64 {
            return Ok(0);
        }
        if at != self.place {
            self.file.seek(SeekFrom::Start(at))?;
        }
        let n = fill(&mut self.file, buf)?;
        self.place = at.saturating_add(n as u64);
        Ok(n)
    }
}

fn texts(alloc: Global, names: &[String]) -> Result<Seq<Text>, Memory>
    ensures { IfOk result (λ texts. texts ≡ map string_bytes names.now) }
{
    let mut texts = Seq::new(alloc);
    for name in names {
        texts.push(Text::copy_of(alloc, name.as_str())?)?;
    }
    Ok(texts)
}

// Fills the front of the buffer as far as the reader goes, and says how many bytes these are.
fn fill<F: Read>(from: &mut F, buf: &mut [u8]) -> io::Result<usize>
    ensures within { IfOk result (λ n. n ≤ length buf.old) }
    ensures bytes { IfOk result (λ n. Consumes (F.remaining from.old) (F.remaining from.new) (take n buf.new)) }
    ensures whole { IfOk result (λ n. n < length buf.old → IsAtEnd (F.remaining from.new)) }
    ensures retried { IfErr result (λ error. error_kind error ≢ ErrorKind.Interrupted) }
{
    let mut filled = 0;
    for _ in 0..u64::MAX {
        if filled == buf.len() {
            return Ok(filled);
        }
        match from.read(&mut buf[filled..]) {
            Ok(0) => return Ok(filled),
            Ok(n) => filled += n,
            Err(error) if error.kind() == ErrorKind::Interrupted => {}
            Err(error) => return Err(error),
        }
    }
    Err(io::Error::from(ErrorKind::TimedOut))
}

#[cfg(test)]
mod tests;

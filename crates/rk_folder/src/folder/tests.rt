ghost use Rattle.std.specs.Prelude.{◌≤◌, IfOk, length};

use super::*;
use std::alloc::{AllocError, Allocator};
use std::fs::OpenOptions;
use std::rt::Env;
use std::test::Fail;
use std::{env, process};

// What a reader holds, and the errors that its second and third calls give.
#[derive(Drop)]
struct Halting {
    calls: usize,
    third: ErrorKind,
}

impl Read for Halting {
    fn read(&mut self, buf: &mut [u8]) -> io::Result<usize> {
        self.calls = self.calls.wrapping_add(1);
        match self.calls {
            2 => Err(io::Error::from(ErrorKind::Interrupted)),
            3 => Err(io::Error::from(self.third)),
            _ => match buf.first_mut() {
                Some(byte) => {
                    *byte = b'x';
                    Ok(1)
                }
                None => Ok(0),
            },
        }
    }
}

#[test]
fn fill_goes_on_after_an_interruption_alone(rt: HostRuntime) -> Result<(), Fail> {
    let mut buf = [0; 3];
    let mut goes_on = Halting {
        calls: 0,
        third: ErrorKind::Interrupted,
    };
    assert_eq!(rt; fill(&mut goes_on, &mut buf)?, 3);
    assert_eq!(rt; goes_on.calls, 5);
    assert_eq!(rt; buf, *b"xxx");
    let mut fails = Halting {
        calls: 0,
        third: ErrorKind::Other,
    };
    assert_eq!(rt; fill(&mut fails, &mut buf).is_err(), true);
    assert_eq!(rt; fails.calls, 3);
    Ok(())
}

fn names_of<D: Disk>(disk: &mut D, alloc: Global) -> Result<Seq<Text>, DiskErr> {
    disk.names(alloc)
}

// The texts, each with a space behind it.
fn spaced(alloc: Global, texts: &[Text]) -> Result<String, AllocError> {
    let mut spaced = String::new(alloc);
    for text in texts {
        spaced.push_str(text.as_str())?;
        spaced.push_str(" ")?;
    }
    Ok(spaced)
}

// The size of a file, and how many of its bytes the buffer got.
fn look<D: Disk>(
    disk: &mut D,
    name: &str,
    at: u64,
    buf: &mut [u8],
) -> Result<(Option<u64>, usize), DiskErr>
    ensures { IfOk result (λ found. found.1 ≤ length buf.new) }
{
    let size = disk.size(name)?;
    let n = disk.read(name, at, buf)?;
    Ok((size, n))
}

// A new folder of the system that holds a few files and two folders.
fn make_folder<R: Files + Env + AllocGlobal>(rt: &R, id: u32) -> io::Result<PathBuf> {
    let alloc = rt.alloc();
    let name = format!(in alloc; "rescue-{id}")?;
    let folder = env::temp_dir(rt)?.join(alloc, name.as_str())?;
    for made in ["", "lost", "other"] {
        fs::create_dir(rt, folder.join(alloc, made)?)?;
    }
    for (file, text) in [
        ("CURRENT", "MANIFEST-000002\n"),
        ("000003.log", "0123456789"),
        ("lost/000002.log", "ab"),
        ("other/000001.log", "cd"),
    ] {
        fs::write(rt, folder.join(alloc, file)?, text)?;
    }
    Ok(folder)
}

#[test]
fn the_system_is_reached(rt: HostRuntime) -> Result<(), Fail> {
    let alloc = rt.alloc();
    let folder = make_folder(&rt, process::id(rt.process()))?;
    let mut disk = FolderDisk::new(&rt, alloc, folder.as_str())?;
    let names = spaced(alloc, names_of(&mut disk, alloc)?.as_slice())?;
    assert_eq!(rt; names.as_str(), "000003.log CURRENT lost/000002.log ");
    let mut buf = [0; 4];
    for (name, at, size, bytes) in [
        ("000003.log", 0, Some(10), "0123"),
        ("000003.log", 7, Some(10), "789"),
        ("000003.log", 10, Some(10), ""),
        ("000003.log", u64::MAX, Some(10), ""),
        ("lost/000002.log", 1, Some(2), "b"),
        ("000004.log", 0, None, ""),
        ("other", 0, None, ""),
        ("other/000001.log", 0, None, ""),
        // On from where the last read of it ended, and back.
        ("000003.log", 0, Some(10), "0123"),
        ("000003.log", 4, Some(10), "4567"),
        ("000003.log", 1, Some(10), "1234"),
    ] {
        let (length, n) = look(&mut disk, name, at, &mut buf)?;
        assert_eq!(rt; length, size, "{name}");
        assert_eq!(rt; &buf[..n], bytes.as_bytes(), "{name} at {at}");
    }
    rt.remove_dir_all(alloc, folder.as_str())?;
    Ok(())
}

#[test]
fn an_absent_folder_fails(rt: HostRuntime) -> Result<(), Fail> {
    let mut disk = FolderDisk::new(&rt, rt.alloc(), "/absent/folder")?;
    for (i, name) in ["000003.log", "other/000001.log", "no\0name"]
        .iter()
        .enumerate()
    {
        assert_eq!(rt; disk.size(name), Err(DiskErr::Failed), "{name}");
        assert_eq!(rt; disk.read(name, 0, &mut []), Err(DiskErr::Failed), "{name}");
        assert_eq!(rt; disk.failures, 2 * i as u64 + 2);
    }
    assert_eq!(rt;
        names_of(&mut disk, rt.alloc()).err(),
        Some(DiskErr::Failed)
    );
    Ok(())
}

// A system in which each folder has one name, and each path leads to a folder.
#[derive(Drop)]
struct OneName<'a, R> {
    rt: &'a R,
    text: bool,
}

// The bytes of the name and a NUL, of which one read gives all.
#[derive(Drop)]
struct Names {
    name: &'static [u8],
}

impl Read for Names {
    fn read(&mut self, buf: &mut [u8]) -> io::Result<usize> {
        let n = self.name.len().min(buf.len());
        buf[..n].copy_from_slice(&self.name[..n]);
        self.name = &self.name[n..];
        Ok(n)
    }
}

impl<'a, R: Files> Files for OneName<'a, R> {
    type File = R::File;

    type Dir = Names;

    fn open_file(&self, how: &OpenOptions, path: &str) -> io::Result<R::File> {
        self.rt.open_file(how, path)
    }

    fn open_dir(&self, _path: &str) -> io::Result<Names> {
        Ok(Names {
            name: if self.text { b"f\0" } else { b"\xFF\0" },
        })
    }

    fn metadata(&self, _path: &str) -> io::Result<Metadata> {
        self.rt.metadata(".")
    }

    fn symlink_metadata(&self, _path: &str) -> io::Result<Metadata> {
        self.rt.metadata(".")
    }

    fn copy(&self, from: &str, to: &str) -> io::Result<u64> {
        self.rt.copy(from, to)
    }

    fn rename(&self, from: &str, to: &str) -> io::Result<()> {
        self.rt.rename(from, to)
    }

    fn remove_file(&self, path: &str) -> io::Result<()> {
        self.rt.remove_file(path)
    }

    fn create_dir(&self, path: &str) -> io::Result<()> {
        self.rt.create_dir(path)
    }

    fn remove_dir(&self, path: &str) -> io::Result<()> {
        self.rt.remove_dir(path)
    }

    fn remove_dir_all<B: Allocator>(&self, alloc: B, path: &str) -> io::Result<()> {
        self.rt.remove_dir_all(alloc, path)
    }
}

// Why the names of a folder of the system aren't given.
fn names_fail<R: Files>(system: &R, alloc: Global) -> Result<Option<DiskErr>, Memory> {
    let mut disk = FolderDisk::new(system, alloc, "folder")?;
    Ok(names_of(&mut disk, alloc).err())
}

#[test]
fn a_name_that_is_no_text_fails(rt: HostRuntime) -> Result<(), Fail> {
    let alloc = rt.alloc();
    let system = OneName {
        rt: &rt,
        text: false,
    };
    assert_eq!(rt; names_fail(&system, alloc)?, Some(DiskErr::Failed));
    let system = OneName {
        rt: &rt,
        text: true,
    };
    assert_eq!(rt; names_fail(&system, alloc)?, None);
    Ok(())
}

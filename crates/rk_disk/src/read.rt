ghost use Rattle.std.specs.Prelude.{◌≡◌, ◌+◌, ◌^◌, ◌<◌, ◌≤◌, ◌++◌, [], false, length, take, drop, IfOk, IfSome, unwrap_or};
ghost use Rattle.std.specs.FinMap as map;
ghost use Rattle.rk_bytes.specs.Model.DiskImages.{IsLeft, contents_told, part_of_file, Counts};
ghost use Rattle.rk_disk.specs.Faults.{disk_failed};
ghost use Rattle.rk_disk.specs.Parts.{IsPart, OfFile};

use crate::{Disk, DiskErr};
use rk_bytes::Bytes;
use std::alloc::Global;

/// How many bytes one `read` asks for at most.
const READ_LEN: usize = 32_768;

/// Fills the front of the buffer as one `read` would that goes on to the buffer's or the file's end,
/// and says how many bytes these are: it reads until the buffer is full or a `read` gives none.
///
/// It takes no memory of its own. `Failed` comes where the disk fails. After an `Err` a part of the
/// buffer may be filled.
pub fn read_piece<D: Disk>(
    disk: &mut D,
    name: &str,
    at: u64,
    buf: &mut [u8],
) -> Result<usize, DiskErr>
    ensures within { IfOk result (λ n. n ≤ length buf.old) }
    ensures part { IfOk result (λ n. IfSome (contents_told (D.told disk.old)) (λ files.
        let part = part_of_file at (length buf.old) (unwrap_or (map.get files name.now) []) in
        (n ≡ length part) × (buf.new ≡ part ++ drop n buf.old))) }
    ensures left { IsLeft (D.told disk.old) (D.told disk.new) }
    ensures faults { Counts (disk_failed result) (D.faults disk.old) (D.faults disk.new) }
{
    let mut filled = 0;
    while filled < buf.len() {
        // No byte lies past the last place of a u64.
        let Some(place) = at.checked_add(filled as u64) else {
            break;
        };
        let got = disk.read(name, place, &mut buf[filled..])?;
        if got == 0 {
            break;
        }
        filled += got;
    }
    Ok(filled)
}

/// Reads the next part of a file of `size` bytes, which begins at `at`, into the buffer: as much as the
/// buffer holds, or what is left. Says how long the part is, and whether it is the last one. A file that
/// has fewer bytes than the size says ends with the part.
///
/// It takes no memory of its own. `Failed` comes where the disk fails. After an `Err` a part of the
/// buffer may be filled.
pub fn read_part<D: Disk>(
    disk: &mut D,
    name: &str,
    at: u64,
    size: u64,
    buf: &mut [u8],
) -> Result<(usize, bool), DiskErr>
    requires { at ≤ size }
    ensures room { length buf.new ≡ length buf.old }
    ensures len { IfOk result (λ read. (read.0 ≤ length buf.old) × (at + read.0 ≤ size)) }
    ensures full { IfOk result (λ read. read.1 ≡ false → (read.0 ≡ length buf.old) × (at + length buf.old < size)) }
    ensures part { IfOk result (λ read. OfFile (D.told disk.old) name.now size (λ bytes. IsPart at bytes (take read.0 buf.new) read.1)) }
    ensures left { IsLeft (D.told disk.old) (D.told disk.new) }
    ensures faults { Counts (disk_failed result) (D.faults disk.old) (D.faults disk.new) }
{
    let room = buf.len() as u64;
    let wanted = room.min(size - at) as usize;
    let len = read_piece(disk, name, at, &mut buf[..wanted])?;
    Ok((len, len < buf.len() || size - at == room))
}

/// The whole file, or `None` where there is no file of that name.
///
/// It asks for the size, and reads pieces of at most 32,768 bytes into the room behind what it has
/// read, up to the size or to the first read that gives none, so that it takes no memory for bytes
/// that the disk only claims to have. `Failed` comes where the disk fails.
pub fn read_file<D: Disk>(alloc: Global, disk: &mut D, name: &str) -> Result<Option<Bytes>, DiskErr>
    ensures file { IfOk result (λ file. IfSome (contents_told (D.told disk.old)) (λ files. file ≡ map.get files name.now)) }
    ensures left { IsLeft (D.told disk.old) (D.told disk.new) }
    ensures faults { Counts (disk_failed result) (D.faults disk.old) (D.faults disk.new) }
{
    let Some(size) = disk.size(name)? else {
        return Ok(None);
    };
    let bytes = read_front(alloc, disk, name, size)?;
    Ok(Some(Bytes::from_vec(bytes)))
}

/// The first `size` bytes of a file, or all where it has fewer.
fn read_front<D: Disk>(
    alloc: Global,
    disk: &mut D,
    name: &str,
    size: u64,
) -> Result<Vec<u8>, DiskErr>
    ensures bytes { IfOk result (λ bytes. IfSome (contents_told (D.told disk.old)) (λ files. bytes.items ≡ take size (unwrap_or (map.get files name.now) []))) }
    ensures left { IsLeft (D.told disk.old) (D.told disk.new) }
    ensures faults { Counts (disk_failed result) (D.faults disk.old) (D.faults disk.new) }
{
    let len = size as usize;
    let mut bytes = Vec::new(alloc);
    while bytes.len() < len {
        let wanted = READ_LEN.min(len - bytes.len());
        if read_behind(disk, name, &mut bytes, wanted)? < wanted {
            break;
        }
    }
    Ok(bytes)
}

/// Reads at most `wanted` more bytes of a file behind those that were read of it, and says how many
/// these are: fewer where the file ends.
fn read_behind<D: Disk>(
    disk: &mut D,
    name: &str,
    bytes: &mut Vec<u8>,
    wanted: usize,
) -> Result<usize, DiskErr>
    requires { length bytes.old.items + wanted < 2 ^ 64 }
    ensures within { IfOk result (λ n. n ≤ wanted) }
    ensures len { IfOk result (λ n. length bytes.new.items ≡ length bytes.old.items + n) }
    ensures part { IfOk result (λ n. IfSome (contents_told (D.told disk.old)) (λ files.
        let part = part_of_file (length bytes.old.items) wanted (unwrap_or (map.get files name.now) []) in
        (n ≡ length part) × (bytes.new.items ≡ bytes.old.items ++ part))) }
    ensures left { IsLeft (D.told disk.old) (D.told disk.new) }
    ensures faults { Counts (disk_failed result) (D.faults disk.old) (D.faults disk.new) }
{
    let filled = bytes.len();
    bytes.resize(filled + wanted, 0)?;
    let got = read_piece(disk, name, filled as u64, &mut bytes[filled..])?;
    bytes.truncate(filled + got);
    Ok(got)
}

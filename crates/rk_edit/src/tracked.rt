//! Logs that are tracked (RocksDB's db/wal_edit.cc). Each value is a slice, and what stands in it behind the
//! value is passed over.
ghost use Rattle.std.specs.Prelude.{◌≡◌};
ghost use Rattle.rk_bytes.specs.Reading.{IsFurther, rest_of, read_by};
ghost use Rattle.rk_bytes.specs.Model.Numbers.{varint64_at};
ghost use Rattle.rk_bytes.specs.Model.VersionEdit.{in_slice, tracked_at};
ghost use Rattle.rk_edit.specs.Read.{synced_at};

use rk_bytes::model::Tracked;
use rk_bytes::{Cursor, NumFault};

/// The tag that ends a tracked log.
const END: u32 = 1;

/// The tag of a tracked log's synced size.
const SYNCED_SIZE: u32 = 2;

/// A log that is tracked from now on.
pub(crate) fn read_tracked(cursor: &mut Cursor<'_>) -> Result<Tracked, NumFault>
    ensures value { read_by result cursor.new ≡ in_slice tracked_at (rest_of cursor.old) }
    ensures after { IsFurther cursor.old cursor.new }
{
    let mut slice = Cursor::new(cursor.prefixed()?);
    let log = slice.varint64()?;
    let synced = read_synced(&mut slice)?;
    Ok(Tracked { log, synced })
}

/// The number below which no log is tracked any longer.
pub(crate) fn read_untracked(cursor: &mut Cursor<'_>) -> Result<u64, NumFault>
    ensures value { read_by result cursor.new ≡ in_slice varint64_at (rest_of cursor.old) }
    ensures after { IsFurther cursor.old cursor.new }
{
    let mut slice = Cursor::new(cursor.prefixed()?);
    slice.varint64()
}

/// The synced size of a tracked log, up to the tag that ends the log. The last one that is stated counts.
fn read_synced(cursor: &mut Cursor<'_>) -> Result<Option<u64>, NumFault>
    ensures value { read_by result cursor.new ≡ synced_at (rest_of cursor.old) }
    ensures after { IsFurther cursor.old cursor.new }
{
    let mut synced = None;
    loop {
        match cursor.varint32()? {
            END => return Ok(synced),
            SYNCED_SIZE => synced = Some(cursor.varint64()?),
            _ => return Err(NumFault::TooLarge),
        }
    }
}

ghost use Rattle.std.specs.Prelude.{◌≡◌, OnErr};
ghost use Rattle.rk_bytes.specs.Model.BlockEntries.{handle_at};
ghost use Rattle.rk_bytes.specs.Reading.{IsFurther, rest_of, read_by};

use crate::Handle;
use rk_bytes::{Cursor, NumFault};

/// The handle that comes next: the block's offset and its size, each a varint of 64 bits. A fault is that of
/// the first of them that doesn't read, and leaves the cursor where it is. Takes no memory.
pub fn read_handle(cursor: &mut Cursor<'_>) -> Result<Handle, NumFault>
    ensures value { read_by result cursor.new ≡ handle_at (rest_of cursor.old) }
    ensures after { IsFurther cursor.old cursor.new }
    ensures err { OnErr result (cursor.new ≡ cursor.old) }
{
    let mut ahead = Cursor::new(cursor.rest());
    let offset = ahead.varint64()?;
    let size = ahead.varint64()?;
    cursor.take(ahead.place())?;
    Ok(Handle { offset, size })
}

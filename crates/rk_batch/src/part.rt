//! One part of a batch, read where a cursor stands.
ghost use Rattle.std.specs.Prelude.{◌≡◌, ◌<◌, ℕ, length, drop, slice_index};
ghost use Rattle.rk_bytes.specs.Model.WriteBatch.{value_at, part_of_tag};
ghost use Rattle.rk_bytes.specs.Reading.{IsFurther, rest_of, read_by, slice_read};
ghost use Rattle.rk_batch.specs.Parts.{family_read, change_read, kind_with_tag, raw_read, part_read, tagged_read};

use rk_bytes::model::{BatchFault, Kind};
use rk_bytes::{Cursor, NumFault};

/// A part without its place and its sequence number.
#[derive(Debug, Drop)]
pub(crate) enum RawPart<'a> {
    Change {
        family: u32,
        kind: Kind,
        key: &'a [u8],
        value: &'a [u8],
    },
    LogBytes(&'a [u8]),
    Noop,
}

/// The tag of bytes for the log alone.
const LOG_BYTES: u8 = 0x3;

/// The tag of nothing.
const NOOP: u8 = 0xD;

/// The part that comes next. A fault has the part's place.
pub(crate) fn read_part<'a>(cursor: &mut Cursor<'a>) -> Result<RawPart<'a>, BatchFault>
    requires { 0 < length (rest_of cursor.old) }
    ensures part { (sequence : ℕ) → part_read cursor.old.place sequence result cursor.new
        ≡ part_of_tag cursor.old.place sequence (slice_index (rest_of cursor.old) 0) (drop 1 (rest_of cursor.old)) }
    ensures after { IsFurther cursor.old cursor.new }
{
    let place = cursor.place() as u64;
    let tag = next_byte(cursor);
    match tag {
        LOG_BYTES => match cursor.prefixed() {
            Ok(bytes) => Ok(RawPart::LogBytes(bytes)),
            Err(_) => Err(BatchFault::BadRecord(place)),
        },
        NOOP => Ok(RawPart::Noop),
        0x9..=0xC | 0x10..=0x1F => Err(BatchFault::UnsupportedTag(tag)),
        _ => read_tagged(cursor, tag, place),
    }
}

/// The change with this tag, which stands before the cursor.
fn read_tagged<'a>(cursor: &mut Cursor<'a>, tag: u8, place: u64) -> Result<RawPart<'a>, BatchFault>
    ensures part { (sequence : ℕ) → part_read place sequence result cursor.new ≡ tagged_read place sequence tag (rest_of cursor.old) }
    ensures after { IsFurther cursor.old cursor.new }
{
    let Some((kind, named)) = kind_of(tag) else {
        return Err(BatchFault::BadRecord(place));
    };
    match read_change(cursor, kind, named) {
        Ok(change) => Ok(change),
        Err(_) => Err(BatchFault::BadRecord(place)),
    }
}

/// The next byte, of which there is one.
fn next_byte(cursor: &mut Cursor<'_>) -> u8
    requires { 0 < length (rest_of cursor.old) }
    ensures byte { result ≡ slice_index (rest_of cursor.old) 0 }
    ensures rest { rest_of cursor.new ≡ drop 1 (rest_of cursor.old) }
    ensures after { IsFurther cursor.old cursor.new }
{
    match cursor.take(1) {
        Ok(part) => part[0],
        Err(_) => unreachable!(),
    }
}

/// The kind of the changes with this tag, and whether a family's id follows the tag.
fn kind_of(tag: u8) -> Option<(Kind, bool)>
    ensures { result ≡ kind_with_tag tag }
{
    match tag {
        0x0 => Some((Kind::Deletion, false)),
        0x1 => Some((Kind::Value, false)),
        0x2 => Some((Kind::Merge, false)),
        0x4 => Some((Kind::Deletion, true)),
        0x5 => Some((Kind::Value, true)),
        0x6 => Some((Kind::Merge, true)),
        0x7 => Some((Kind::SingleDeletion, false)),
        0x8 => Some((Kind::SingleDeletion, true)),
        0xE => Some((Kind::RangeDeletion, true)),
        0xF => Some((Kind::RangeDeletion, false)),
        _ => None,
    }
}

/// The change that follows its tag.
fn read_change<'a>(
    cursor: &mut Cursor<'a>,
    kind: Kind,
    named: bool,
) -> Result<RawPart<'a>, NumFault>
    ensures value { (place sequence : ℕ) → raw_read place sequence result cursor.new ≡ change_read place sequence named kind (rest_of cursor.old) }
    ensures after { IsFurther cursor.old cursor.new }
{
    let family = read_family(cursor, named)?;
    let key = cursor.prefixed()?;
    let value = read_value(cursor, kind)?;
    Ok(RawPart::Change {
        family,
        kind,
        key,
        value,
    })
}

/// The family's id, or 0 where it isn't named.
fn read_family(cursor: &mut Cursor<'_>, named: bool) -> Result<u32, NumFault>
    ensures value { read_by result cursor.new ≡ family_read named (rest_of cursor.old) }
    ensures after { IsFurther cursor.old cursor.new }
{
    if named { cursor.varint32() } else { Ok(0) }
}

/// The value of a change of this kind.
fn read_value<'a>(cursor: &mut Cursor<'a>, kind: Kind) -> Result<&'a [u8], NumFault>
    ensures value { read_by (slice_read result) cursor.new ≡ value_at kind (rest_of cursor.old) }
    ensures after { IsFurther cursor.old cursor.new }
{
    match kind {
        Kind::Deletion | Kind::SingleDeletion => Ok(&[]),
        Kind::Value | Kind::Merge | Kind::RangeDeletion => cursor.prefixed(),
    }
}

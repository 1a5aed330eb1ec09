//! What fields say of table files.
ghost use Rattle.std.specs.Prelude.{◌≡◌, ◌==◌, ◌/◌, ◌%◌, ℕ, List, length};
ghost use Rattle.rk_bytes.specs.Reading.{IsFurther, rest_of, read_by, slice_read};
ghost use Rattle.rk_bytes.specs.Model.Numbers.{reads_or, varint32_at};
ghost use Rattle.rk_bytes.specs.Model.VersionEdit.{level_at, bound_at, file_at, sequenced_file_at, after_path, after_custom, after_customs, custom_file_at, cursor_at, deleted_at};
ghost use Rattle.rk_edit.specs.Fields.{field_of, new_file};
ghost use Rattle.rk_edit.specs.Read.{read_as, left_by, left_over};

use crate::tag::CUSTOM_FILE;
use crate::{AddFile, Field};
use rk_bytes::model::{EditFault, Seqs};
use rk_bytes::{Cursor, NumFault};

/// The greatest level.
const MOST_LEVEL: u32 = 255;

/// The fewest bytes of an internal key, whose user key is empty.
const LEAST_KEY_LEN: usize = 8;

/// The tag that ends custom fields.
const END: u32 = 1;

/// The tag of the custom field that says in which of the database's paths the file is.
const PATH_ID: u32 = 65;

/// A custom field whose tag has this bit may not be passed over.
const NEEDED_BIT: u32 = 1 << 6;

/// A level, which is at most 255.
fn read_level(cursor: &mut Cursor<'_>) -> Result<u32, NumFault>
    ensures value { read_by result cursor.new ≡ level_at (rest_of cursor.old) }
    ensures after { IsFurther cursor.old cursor.new }
{
    let level = cursor.varint32()?;
    if level > MOST_LEVEL {
        return Err(NumFault::TooLarge);
    }
    Ok(level)
}

/// An internal key, which has 8 bytes at least.
fn read_bound<'a>(cursor: &mut Cursor<'a>) -> Result<&'a [u8], NumFault>
    ensures value { read_by (slice_read result) cursor.new ≡ bound_at (rest_of cursor.old) }
    ensures after { IsFurther cursor.old cursor.new }
{
    let key = cursor.prefixed()?;
    if key.len() < LEAST_KEY_LEN {
        return Err(NumFault::Cut);
    }
    Ok(key)
}

/// How far the compactions of a level came.
pub(crate) fn read_compact_cursor<'a>(cursor: &mut Cursor<'a>) -> Result<Field<'a>, NumFault>
    ensures value { read_as field_of result cursor.new ≡ cursor_at (rest_of cursor.old) }
    ensures after { IsFurther cursor.old cursor.new }
{
    let level = read_level(cursor)?;
    let key = read_bound(cursor)?;
    Ok(Field::CompactCursor { level, key })
}

/// A file that is no longer in its level.
pub(crate) fn read_deleted<'a>(cursor: &mut Cursor<'a>) -> Result<Field<'a>, NumFault>
    ensures value { read_as field_of result cursor.new ≡ deleted_at (rest_of cursor.old) }
    ensures after { IsFurther cursor.old cursor.new }
{
    let level = read_level(cursor)?;
    let number = cursor.varint64()?;
    Ok(Field::DeleteFile { level, number })
}

/// An added file without its sequence numbers.
pub(crate) fn read_file<'a>(cursor: &mut Cursor<'a>) -> Result<AddFile<'a>, NumFault>
    ensures value { read_as new_file result cursor.new ≡ file_at (rest_of cursor.old) }
    ensures after { IsFurther cursor.old cursor.new }
{
    let level = read_level(cursor)?;
    let number = cursor.varint64()?;
    let size = cursor.varint64()?;
    let smallest = read_bound(cursor)?;
    let largest = read_bound(cursor)?;
    Ok(AddFile {
        level,
        number,
        size,
        smallest,
        largest,
        seqs: None,
    })
}

/// An added file with its sequence numbers.
pub(crate) fn read_sequenced_file<'a>(cursor: &mut Cursor<'a>) -> Result<AddFile<'a>, NumFault>
    ensures value { read_as new_file result cursor.new ≡ sequenced_file_at (rest_of cursor.old) }
    ensures after { IsFurther cursor.old cursor.new }
{
    let file = read_file(cursor)?;
    let least = cursor.varint64()?;
    let greatest = cursor.varint64()?;
    Ok(AddFile {
        seqs: Some(Seqs { least, greatest }),
        ..file
    })
}

/// An added file with custom fields, which are passed over. Faults have the place of the file's tag.
pub(crate) fn read_custom_file<'a>(
    cursor: &mut Cursor<'a>,
    place: u64,
) -> Result<Field<'a>, EditFault>
    ensures value { read_as field_of result cursor.new ≡ custom_file_at place (rest_of cursor.old) }
    ensures after { IsFurther cursor.old cursor.new }
{
    match read_sequenced_file(cursor) {
        Ok(file) => {
            skip_customs(cursor, place)?;
            Ok(Field::AddFile(file))
        }
        Err(_) => Err(bad_file(place)),
    }
}

/// Passes over the custom fields of a file, and over the tag that ends them.
fn skip_customs(cursor: &mut Cursor<'_>, place: u64) -> Result<(), EditFault>
    ensures value { left_by result cursor.new ≡ after_customs (length (rest_of cursor.old)) place (rest_of cursor.old) }
    ensures after { IsFurther cursor.old cursor.new }
{
    loop {
        let tag = read_custom_tag(cursor, place)?;
        if tag == END {
            return Ok(());
        }
        skip_custom(cursor, tag, place)?;
    }
}

/// The tag of a custom field.
fn read_custom_tag(cursor: &mut Cursor<'_>, place: u64) -> Result<u32, EditFault>
    ensures value { read_as (λ tag. tag) result cursor.new ≡ reads_or (EditFault.BadField 103 place) (varint32_at (rest_of cursor.old)) }
    ensures after { IsFurther cursor.old cursor.new }
{
    match cursor.varint32() {
        Ok(tag) => Ok(tag),
        Err(_) => Err(bad_file(place)),
    }
}

/// Passes over the value of the custom field with this tag.
fn skip_custom(cursor: &mut Cursor<'_>, tag: u32, place: u64) -> Result<(), EditFault>
    ensures value { left_by result cursor.new ≡ after_custom place tag (rest_of cursor.old) }
    ensures after { IsFurther cursor.old cursor.new }
{
    if tag != PATH_ID && is_needed(tag) {
        return Err(EditFault::UnknownTag { tag, place });
    }
    match cursor.prefixed() {
        Ok(path) if tag == PATH_ID => check_path(path, place),
        Ok(_) => Ok(()),
        Err(_) => Err(bad_file(place)),
    }
}

/// Whether a custom field with this tag may not be passed over.
fn is_needed(tag: u32) -> bool
    ensures { result ≡ (tag / 64 % 2 == 1) }
{
    tag & NEEDED_BIT != 0
}

/// A path's id has one byte, which is 0: other paths aren't supported.
fn check_path(path: &[u8], place: u64) -> Result<(), EditFault>
    ensures { (rest : List ℕ) → left_over result rest ≡ after_path place path.now rest }
{
    match path {
        [0] => Ok(()),
        [_] => Err(EditFault::UnsupportedTag {
            tag: PATH_ID,
            place,
        }),
        _ => Err(bad_file(place)),
    }
}

/// The fault of an added file with custom fields that doesn't read.
fn bad_file(place: u64) -> EditFault
    ensures { result ≡ EditFault.BadField 103 place }
{
    EditFault::BadField {
        tag: CUSTOM_FILE,
        place,
    }
}

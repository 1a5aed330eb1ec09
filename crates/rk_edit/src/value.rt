//! The value of a field, which follows its tag.
ghost use Rattle.std.specs.Prelude.{◌≡◌, ◌==◌, ◌/◌, ◌%◌, option_map};
ghost use Rattle.rk_bytes.specs.Reading.{IsFurther, rest_of, read_by};
ghost use Rattle.rk_bytes.specs.Model.VersionEdit.{sequence_at, added_log, is_unsupported_edit_tag, field_of_tag};
ghost use Rattle.rk_edit.specs.Fields.{field_of};
ghost use Rattle.rk_edit.specs.Read.{read_as, known_at};

use crate::file::{
    read_compact_cursor, read_custom_file, read_deleted, read_file, read_sequenced_file,
};
use crate::tracked::{read_tracked, read_untracked};
use crate::{Field, tag};
use rk_bytes::model::{EditFault, Tracked};
use rk_bytes::{Cursor, NumFault};

/// The greatest sequence number.
const TOP: u64 = (1 << 56) - 1;

/// The field with this tag, which stands before the cursor. Faults have the place of the tag.
pub(crate) fn read_value<'a>(
    cursor: &mut Cursor<'a>,
    tag: u32,
    place: u64,
) -> Result<Field<'a>, EditFault>
    ensures value { read_as field_of result cursor.new ≡ field_of_tag place tag (rest_of cursor.old) }
    ensures after { IsFurther cursor.old cursor.new }
{
    if tag == tag::CUSTOM_FILE {
        return read_custom_file(cursor, place);
    }
    if is_unsupported(tag) {
        return Err(EditFault::UnsupportedTag { tag, place });
    }
    match read_known(cursor, tag) {
        Ok(Some(field)) => Ok(field),
        Ok(None) => Err(EditFault::UnknownTag { tag, place }),
        Err(_) => Err(EditFault::BadField { tag, place }),
    }
}

/// Whether fields with this tag aren't supported: an older form of an added file, blob files, and the first
/// forms of tracked logs.
fn is_unsupported(tag: u32) -> bool
    ensures { result ≡ is_unsupported_edit_tag tag }
{
    matches!(tag, 102 | 400 | 401 | 8194..=8197)
}

/// The field with this tag, or `None` where no field has it that is supported.
fn read_known<'a>(cursor: &mut Cursor<'a>, tag: u32) -> Result<Option<Field<'a>>, NumFault>
    ensures value { read_as (option_map field_of) result cursor.new ≡ known_at tag (rest_of cursor.old) }
    ensures after { IsFurther cursor.old cursor.new }
{
    match tag {
        tag::COMPARATOR => Ok(Some(Field::Comparator(cursor.prefixed()?))),
        tag::LOG_NUMBER => Ok(Some(Field::LogNumber(cursor.varint64()?))),
        tag::NEXT_FILE => Ok(Some(Field::NextFile(cursor.varint64()?))),
        tag::LAST_SEQUENCE => Ok(Some(Field::LastSequence(read_sequence(cursor)?))),
        tag::COMPACT_CURSOR => Ok(Some(read_compact_cursor(cursor)?)),
        tag::DELETE_FILE => Ok(Some(read_deleted(cursor)?)),
        tag::ADD_FILE => Ok(Some(Field::AddFile(read_file(cursor)?))),
        tag::PREVIOUS_LOG => Ok(Some(Field::PreviousLog(cursor.varint64()?))),
        tag::LEAST_LOG => Ok(Some(Field::LeastLog(cursor.varint64()?))),
        tag::SEQUENCED_FILE => Ok(Some(Field::AddFile(read_sequenced_file(cursor)?))),
        tag::FAMILY => Ok(Some(Field::Family(cursor.varint32()?))),
        tag::FAMILY_ADD => Ok(Some(Field::FamilyAdd(cursor.prefixed()?))),
        tag::FAMILY_DROP => Ok(Some(Field::FamilyDrop)),
        tag::GREATEST_FAMILY => Ok(Some(Field::GreatestFamily(cursor.varint32()?))),
        tag::GROUP => Ok(Some(Field::Group(cursor.varint32()?))),
        tag::WAL_ADD => Ok(Some(wal_add(read_tracked(cursor)?))),
        tag::WAL_DELETE => Ok(Some(Field::WalDelete(read_untracked(cursor)?))),
        _ if may_ignore(tag) => Ok(Some(Field::Ignored {
            tag,
            bytes: cursor.prefixed()?,
        })),
        _ => Ok(None),
    }
}

/// The field that adds a tracked log.
fn wal_add<'a>(tracked: Tracked) -> Field<'a>
    ensures { field_of result ≡ added_log tracked }
{
    let Tracked { log, synced } = tracked;
    Field::WalAdd { log, synced }
}

/// A last sequence number.
fn read_sequence(cursor: &mut Cursor<'_>) -> Result<u64, NumFault>
    ensures value { read_by result cursor.new ≡ sequence_at (rest_of cursor.old) }
    ensures after { IsFurther cursor.old cursor.new }
{
    let sequence = cursor.varint64()?;
    if sequence > TOP {
        return Err(NumFault::TooLarge);
    }
    Ok(sequence)
}

/// Whether a field with this tag, which is no other's, may be passed over.
fn may_ignore(tag: u32) -> bool
    ensures { result ≡ (tag / 8192 % 2 == 1) }
{
    tag & tag::IGNORED_BIT != 0
}

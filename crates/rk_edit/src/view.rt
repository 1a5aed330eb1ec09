ghost use Rattle.std.specs.Prelude.{◌≡◌, ◌∷◌, [], List, length, IfSome, IfNone};
ghost use Rattle.rk_bytes.specs.Model.Numbers.{reads_or, varint32_at};
ghost use Rattle.rk_bytes.specs.Model.VersionEdit.{Field as StatedField, field_at, edit_fields};
ghost use Rattle.rk_bytes.specs.Reading.{IsFurther, rest_of};
ghost use Rattle.rk_edit.specs.Before.{Tells};
ghost use Rattle.rk_edit.specs.Fields.{field_of, HasWholeKeys};
ghost use Rattle.rk_edit.specs.Read.{read_as, whether_read};

use crate::before::FamilyFields;
use crate::value::read_value;
use crate::{EditFault, Field};
use rk_bytes::Cursor;
use std::marker::Model;

/// A version edit that reads. Contracts see it as its fields that weren't handed out yet.
#[derive(Debug, Drop)]
pub struct EditView<'a> {
    /// From the next field on.
    rest: &'a [u8],
}

impl<'a> Model for EditView<'a> {
    ghost use Rattle.std.specs.Prelude.{◌≡◌, List, Ok};
    ghost use Rattle.rk_bytes.specs.Model.VersionEdit.{Field, edit_fields};
    ghost use Rattle.rk_edit.specs.Read.{fields_or_none};

    ghost Value = { List Field };

    ghost view = { λ v. fields_or_none (edit_fields v.rest.now) };

    ghost invariant = { λ v. edit_fields v.rest.now ≡ Ok (fields_or_none (edit_fields v.rest.now)) };
}

impl<'a> EditView<'a> {
    /// Reads the bytes as a version edit, with all of its fields to be handed out, or gives the first
    /// fault. Takes no memory.
    pub fn read(bytes: &'a [u8]) -> Result<EditView<'a>, EditFault>
        ensures { result ≡ edit_fields bytes.now }
    {
        check_fields(bytes)?;
        Ok(EditView { rest: bytes })
    }

    /// The next field, or `None` where none is left. Takes no memory.
    pub fn next_field(&mut self) -> Option<Field<'a>>
        ensures given { IfSome result (λ field. self.old ≡ field_of field ∷ self.new) }
        ensures whole { IfSome result (λ field. HasWholeKeys (field_of field)) }
        ensures none { IfNone result ((self.old ≡ []) × (self.new ≡ [])) }
    {
        if self.rest.is_empty() {
            return None;
        }
        let mut cursor = Cursor::new(self.rest);
        match read_field(&mut cursor, FamilyFields::NONE) {
            Ok(field) => {
                self.rest = cursor.rest();
                Some(field)
            }
            Err(_) => unreachable!(),
        }
    }

    /// Another view, of the fields that are left in this one.
    pub fn copy(&self) -> EditView<'a>
        ensures { result ≡ self.now }
    {
        EditView { rest: self.rest }
    }
}

/// Reads all fields, or gives the first fault.
fn check_fields(bytes: &[u8]) -> Result<(), EditFault>
    ensures { result ≡ whether_read (edit_fields bytes.now) }
{
    let mut cursor = Cursor::new(bytes);
    let mut before = FamilyFields::NONE;
    while !cursor.rest().is_empty() {
        let field = read_field(&mut cursor, before)?;
        before = before.and(&field);
    }
    Ok(())
}

/// The field that comes next, after fields of which this much is known.
fn read_field<'a>(cursor: &mut Cursor<'a>, before: FamilyFields) -> Result<Field<'a>, EditFault>
    ensures field { (fields : List StatedField) → Tells before fields
        → read_as field_of result cursor.new ≡ field_at (length cursor.old.bytes) fields (rest_of cursor.old) }
    ensures after { IsFurther cursor.old cursor.new }
{
    let place = cursor.place() as u64;
    let tag = read_tag(cursor)?;
    if before.clash_with(tag) {
        return Err(EditFault::BadField { tag, place });
    }
    read_value(cursor, tag, place)
}

/// The tag of the next field. The fault of one that doesn't read names tag 0.
fn read_tag(cursor: &mut Cursor<'_>) -> Result<u32, EditFault>
    ensures value { read_as (λ tag. tag) result cursor.new ≡ reads_or (EditFault.BadField 0 cursor.old.place) (varint32_at (rest_of cursor.old)) }
    ensures after { IsFurther cursor.old cursor.new }
{
    let place = cursor.place() as u64;
    match cursor.varint32() {
        Ok(tag) => Ok(tag),
        Err(_) => Err(EditFault::BadField { tag: 0, place }),
    }
}

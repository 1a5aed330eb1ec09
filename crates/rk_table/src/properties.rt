//! The properties of a table, by their names.
ghost use Rattle.std.specs.Prelude.{◌≡◌, ◌^◌, unwrap_or, IfOk};
ghost use Rattle.rk_bytes.specs.Model.Numbers.{fixed_at, varint_at, varint64_at};
ghost use Rattle.rk_bytes.specs.Model.InternalKey.{bytewise_name};
ghost use Rattle.rk_bytes.specs.Model.TableStatus.{value_named, number_in, index_type, family_id, user_separators, delta_values, stated_entries, have_forms, is_set, is_bytewise, unsupported_by, tested_properties, family_of, unnamed, family_name_of};
ghost use Rattle.rk_table.specs.Told.{Tells, value_of};

use crate::{Property, TableWhat, TableWhy, WalkErr};
use rk_bytes::{Bytes, Cursor, Memory, Seq};
use std::alloc::Global;

const COMPARATOR: &[u8] = b"rocksdb.comparator";

const INDEX_TYPE: &[u8] = b"rocksdb.block.based.table.index.type";

const EXTERNAL: &[u8] = b"rocksdb.external_sst_file.version";

const FAMILY_ID: &[u8] = b"rocksdb.column.family.id";

const FAMILY_NAME: &[u8] = b"rocksdb.column.family.name";

const USER_KEYS: &[u8] = b"rocksdb.index.key.is.user.key";

const DELTA: &[u8] = b"rocksdb.index.value.is.delta.encoded";

const ENTRIES: &[u8] = b"rocksdb.num.entries";

/// The name of the comparator that orders user keys by their bytes.
const BYTEWISE: &[u8] = b"leveldb.BytewiseComparator";

/// The id of no family.
const NO_FAMILY: u32 = (1 << 31) - 1;

/// The value of the first property with this name.
fn value_named<'a>(name: &[u8], properties: &'a [Property]) -> Option<&'a [u8]>
    ensures { value_of result ≡ value_named name.now properties.now }
{
    for property in properties {
        if property.name.as_slice() == name {
            return Some(property.value.as_slice());
        }
    }
    None
}

/// The varint of 64 bits that the value is: 0 where there is no value.
fn varint64_in(value: Option<&[u8]>) -> Option<u64>
    ensures { result ≡ number_in varint64_at (value_of value.entry) }
{
    let Some(value) = value else {
        return Some(0);
    };
    let mut cursor = Cursor::new(value);
    match cursor.varint64() {
        Ok(number) if cursor.rest().is_empty() => Some(number),
        _ => None,
    }
}

/// The varint of 32 bits, in at most 10 bytes, that the value is: 0 where there is no value.
fn id_in(value: Option<&[u8]>) -> Option<u32>
    ensures { result ≡ number_in (varint_at 10 32) (value_of value.entry) }
{
    match varint64_in(value) {
        Some(number) if number <= u64::from(u32::MAX) => Some(number as u32),
        _ => None,
    }
}

/// The four bytes' number that the value is: 0 where there is no value.
fn fixed32_in(value: Option<&[u8]>) -> Option<u32>
    ensures { result ≡ number_in (fixed_at 4) (value_of value.entry) }
{
    let Some(value) = value else {
        return Some(0);
    };
    match value {
        [a, b, c, d] => Some(u32::from_le_bytes([*a, *b, *c, *d])),
        _ => None,
    }
}

/// Whether separators are user keys.
pub(crate) fn has_user_keys(properties: &[Property]) -> bool
    ensures { result ≡ is_set (user_separators properties.now) }
{
    matches!(varint64_in(value_named(USER_KEYS, properties)), Some(1..))
}

/// Whether the index's handles are delta-encoded.
pub(crate) fn has_delta_handles(properties: &[Property]) -> bool
    ensures { result ≡ is_set (delta_values properties.now) }
{
    matches!(varint64_in(value_named(DELTA, properties)), Some(1..))
}

/// The family that the table belongs to.
pub(crate) fn family(properties: &[Property]) -> u32
    ensures { result ≡ family_of properties.now }
{
    match id_in(value_named(FAMILY_ID, properties)) {
        Some(id) if id != NO_FAMILY => id,
        _ => 0,
    }
}

/// The name of the family that the table belongs to: where there is none, "default" for family 0 and
/// "family-" with the id for the others.
pub(crate) fn family_name(alloc: Global, properties: &[Property]) -> Result<Bytes, Memory>
    ensures { IfOk result (λ name. name ≡ family_name_of properties.now) }
{
    if let Some(name) = value_named(FAMILY_NAME, properties) {
        return Bytes::copy_of(alloc, name);
    }
    match family(properties) {
        0 => Bytes::copy_of(alloc, b"default"),
        id => Ok(Bytes::from_vec(format!(in alloc; "family-{id}")?.into_bytes())),
    }
}

/// Whether each number has its form.
fn have_forms(properties: &[Property]) -> bool
    ensures { result ≡ have_forms properties.now }
{
    fixed32_in(value_named(INDEX_TYPE, properties)).is_some()
        && id_in(value_named(FAMILY_ID, properties)).is_some()
        && varint64_in(value_named(USER_KEYS, properties)).is_some()
        && varint64_in(value_named(DELTA, properties)).is_some()
        && varint64_in(value_named(ENTRIES, properties)).is_some()
}

/// What isn't supported of a table with these properties.
fn unsupported_by(properties: &[Property]) -> Option<TableWhat>
    ensures { result ≡ unsupported_by properties.now }
{
    if let Some(name) = value_named(COMPARATOR, properties)
        && name != BYTEWISE
    {
        return Some(TableWhat::Comparator);
    }
    if let Some(kind @ 1..) = fixed32_in(value_named(INDEX_TYPE, properties)) {
        return Some(TableWhat::IndexType(kind));
    }
    if value_named(EXTERNAL, properties).is_some() {
        return Some(TableWhat::External);
    }
    None
}

/// Tests the properties, whose block stands at this place.
pub(crate) fn tested(place: u64, properties: Seq<Property>) -> Result<Seq<Property>, WalkErr>
    ensures { Tells result (tested_properties place properties) }
{
    if !have_forms(properties.as_slice()) {
        return Err(WalkErr::Damaged {
            why: TableWhy::BadProperty,
            place,
        });
    }
    match unsupported_by(properties.as_slice()) {
        Some(what) => Err(WalkErr::Unsupported(what)),
        None => Ok(properties),
    }
}

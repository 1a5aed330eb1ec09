//! The properties' block.
ghost use Rattle.std.specs.Prelude.{◌≡◌, ◌+◌, ◌^◌, ◌<◌, ◌≤◌, ◌++◌, length, IfOk, OnOk};
ghost use Rattle.rk_bytes.specs.Model.Numbers.{varint_of};
ghost use Rattle.rk_bytes.specs.Model.Writers.{block_bytes};
ghost use Rattle.rk_block.specs.Building.{built_block, with_entry};
ghost use Rattle.rk_tablew.specs.Parts.{family_entries, form_entries, plain_entries, size_entries, with_entries};

use rk_block::BlockBuilder;
use rk_bytes::{Bytes, Memory, put_varint64};
use std::alloc::Global;

/// How many bytes the internal keys of a table have, and the values.
#[derive(Clone, Copy, Debug)]
pub(crate) struct Sizes {
    pub(crate) keys: u64,
    pub(crate) values: u64,
}

/// A number as a varint.
fn varint_bytes(alloc: Global, value: u64) -> Result<Bytes, Memory>
    ensures bytes { IfOk result (λ bytes. bytes ≡ varint_of value) }
    ensures short { IfOk result (λ bytes. length bytes ≤ 10) }
{
    let mut bytes = Bytes::new(alloc);
    put_varint64(&mut bytes, value)?;
    Ok(bytes)
}

/// Adds the properties up to those of the family, whose id is given as a varint.
fn put_family(properties: &mut BlockBuilder, family: &[u8], name: &[u8]) -> Result<(), Memory>
    requires size { length (built_block properties.old) < 1000 }
    requires family { length family.now ≤ 10 }
    requires name { length name.now < 2 ^ 30 }
    ensures added { OnOk result (properties.new ≡ with_entries properties.old (family_entries family.now name.now)) }
    ensures grows { OnOk result (length (built_block properties.new) ≤ length (built_block properties.old) + length name.now + 1000) }
{
    properties.add(b"rocksdb.block.based.table.index.type", &[0; 4])?;
    properties.add(b"rocksdb.column.family.id", family)?;
    properties.add(b"rocksdb.column.family.name", name)
}

/// Adds the properties of the form, and the number of entries, which is given as a varint.
fn put_form(properties: &mut BlockBuilder, count: &[u8]) -> Result<(), Memory>
    requires size { length (built_block properties.old) < 2 ^ 31 }
    requires count { length count.now ≤ 10 }
    ensures added { OnOk result (properties.new ≡ with_entries properties.old (form_entries count.now)) }
    ensures grows { OnOk result (length (built_block properties.new) ≤ length (built_block properties.old) + 1000) }
{
    properties.add(b"rocksdb.comparator", b"leveldb.BytewiseComparator")?;
    properties.add(b"rocksdb.index.key.is.user.key", b"\0")?;
    properties.add(b"rocksdb.index.value.is.delta.encoded", b"\0")?;
    properties.add(b"rocksdb.num.entries", count)
}

/// Adds a property that is a number.
fn put_number(
    properties: &mut BlockBuilder,
    alloc: Global,
    name: &[u8],
    value: u64,
) -> Result<(), Memory>
    requires { length (built_block properties.old) + length name.now + 42 < 2 ^ 32 }
    ensures added { OnOk result (properties.new ≡ with_entry properties.old name.now (varint_of value)) }
    ensures grows { OnOk result (length (built_block properties.new) ≤ length (built_block properties.old) + length name.now + 29) }
{
    let bytes = varint_bytes(alloc, value)?;
    properties.add(name, bytes.as_slice())
}

/// Adds the properties of sizes, if they are stated.
fn put_sizes(
    properties: &mut BlockBuilder,
    alloc: Global,
    sizes: Option<Sizes>,
) -> Result<(), Memory>
    requires { length (built_block properties.old) < 2 ^ 31 + 1000 }
    ensures { OnOk result (properties.new ≡ with_entries properties.old (size_entries sizes)) }
{
    match sizes {
        None => Ok(()),
        Some(sizes) => put_both_sizes(properties, alloc, sizes),
    }
}

/// Adds the properties of sizes.
fn put_both_sizes(properties: &mut BlockBuilder, alloc: Global, sizes: Sizes) -> Result<(), Memory>
    requires { length (built_block properties.old) < 2 ^ 31 + 1000 }
    ensures { OnOk result (properties.new ≡ with_entries properties.old (size_entries (Some sizes))) }
{
    put_number(properties, alloc, b"rocksdb.raw.key.size", sizes.keys)?;
    put_number(properties, alloc, b"rocksdb.raw.value.size", sizes.values)
}

/// The properties' block of a table with so many records and range deletions.
pub(crate) fn properties_block(
    alloc: Global,
    family: u32,
    name: &[u8],
    count: u64,
    sizes: Option<Sizes>,
) -> Result<Bytes, Memory>
    requires { length name.now < 2 ^ 30 }
    ensures { IfOk result (λ block. block ≡ block_bytes 1 (plain_entries family name.now count ++ size_entries sizes)) }
{
    let family = varint_bytes(alloc, u64::from(family))?;
    let count = varint_bytes(alloc, count)?;
    let mut properties = BlockBuilder::new(alloc, 1);
    put_family(&mut properties, family.as_slice(), name)?;
    put_form(&mut properties, count.as_slice())?;
    put_sizes(&mut properties, alloc, sizes)?;
    properties.finish()
}

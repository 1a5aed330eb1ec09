//! Fields as they are written: a tag, and a value in the shortest spelling (RocksDB's db/version_edit.cc and
//! db/wal_edit.cc).
ghost use Rattle.std.specs.Prelude.{◌≡◌, ◌++◌, ◌^◌, ◌<◌, length, Some, OnOk, OnErr};
ghost use Rattle.rk_bytes.specs.Model.Numbers.{varint_of, prefixed_of};
ghost use Rattle.rk_bytes.specs.Model.Writers.{field_bytes, file_bytes, added_file_bytes, tracked_bytes};
ghost use Rattle.rk_edit.specs.Fields.{field_of, new_file};
ghost use Rattle.rk_edit.specs.Writing.{Extends, HasShortSlices};

use crate::{AddFile, Field, tag};
use rk_bytes::model::Seqs;
use rk_bytes::{Bytes, Memory, put_prefixed, put_varint32, put_varint64};
use std::alloc::Global;

/// The tag that ends the custom fields of an added file, and the fields of a tracked log.
const END: u32 = 1;

/// The tag before the synced size of a tracked log.
const SYNCED: u32 = 2;

/// Puts a field at the end of an edit. An added file whose sequence numbers are stated is written with them and
/// with no custom field, any other without. Where memory runs out, it changes nothing.
pub fn write_field(alloc: Global, out: &mut Bytes, field: &Field<'_>) -> Result<(), Memory>
    requires { HasShortSlices (field_of field.now) }
    ensures ok { OnOk result (out.new ≡ out.old ++ field_bytes (field_of field.now)) }
    ensures err { OnErr result (out.new ≡ out.old) }
{
    let len = out.as_slice().len();
    match put_field(alloc, out, field) {
        Ok(()) => Ok(()),
        Err(memory) => {
            out.truncate(len);
            Err(memory)
        }
    }
}

/// Puts a field at the end.
fn put_field(alloc: Global, out: &mut Bytes, field: &Field<'_>) -> Result<(), Memory>
    requires { HasShortSlices (field_of field.now) }
    ensures { Extends out.old (field_bytes (field_of field.now)) result out.new }
{
    match field {
        Field::Comparator(name) => put_slice(out, tag::COMPARATOR, name),
        Field::LogNumber(number) => put_number(out, tag::LOG_NUMBER, *number),
        Field::NextFile(number) => put_number(out, tag::NEXT_FILE, *number),
        Field::LastSequence(number) => put_number(out, tag::LAST_SEQUENCE, *number),
        Field::CompactCursor { level, key } => put_cursor(out, *level, key),
        Field::DeleteFile { level, number } => put_deleted(out, *level, *number),
        Field::AddFile(file) => put_added(out, file),
        Field::PreviousLog(number) => put_number(out, tag::PREVIOUS_LOG, *number),
        Field::LeastLog(number) => put_number(out, tag::LEAST_LOG, *number),
        Field::Family(id) => put_id(out, tag::FAMILY, *id),
        Field::FamilyAdd(name) => put_slice(out, tag::FAMILY_ADD, name),
        Field::FamilyDrop => put_tag(out, tag::FAMILY_DROP),
        Field::GreatestFamily(id) => put_id(out, tag::GREATEST_FAMILY, *id),
        Field::Group(left) => put_id(out, tag::GROUP, *left),
        Field::WalAdd { log, synced } => put_tracked(alloc, out, *log, *synced),
        Field::WalDelete(log) => put_untracked(alloc, out, *log),
        Field::Ignored { tag, bytes } => put_slice(out, *tag, bytes),
    }
}

/// Puts a tag at the end.
fn put_tag(out: &mut Bytes, tag: u32) -> Result<(), Memory>
    ensures { Extends out.old (varint_of tag) result out.new }
{
    put_varint32(out, tag)
}

/// Puts a tag and a number at the end.
fn put_number(out: &mut Bytes, tag: u32, number: u64) -> Result<(), Memory>
    ensures { Extends out.old (varint_of tag ++ varint_of number) result out.new }
{
    put_varint32(out, tag)?;
    put_varint64(out, number)
}

/// Puts a tag and a number of 32 bits at the end.
fn put_id(out: &mut Bytes, tag: u32, id: u32) -> Result<(), Memory>
    ensures { Extends out.old (varint_of tag ++ varint_of id) result out.new }
{
    put_varint32(out, tag)?;
    put_varint32(out, id)
}

/// Puts a tag and a slice at the end.
fn put_slice(out: &mut Bytes, tag: u32, slice: &[u8]) -> Result<(), Memory>
    requires { length slice.now < 2 ^ 32 }
    ensures { Extends out.old (varint_of tag ++ prefixed_of slice.now) result out.new }
{
    put_varint32(out, tag)?;
    put_prefixed(out, slice)
}

/// Puts a compact cursor at the end.
fn put_cursor(out: &mut Bytes, level: u32, key: &[u8]) -> Result<(), Memory>
    requires { length key.now < 2 ^ 32 }
    ensures { Extends out.old (varint_of 5 ++ varint_of level ++ prefixed_of key.now) result out.new }
{
    put_varint32(out, tag::COMPACT_CURSOR)?;
    put_varint32(out, level)?;
    put_prefixed(out, key)
}

/// Puts a deleted file at the end.
fn put_deleted(out: &mut Bytes, level: u32, number: u64) -> Result<(), Memory>
    ensures { Extends out.old (varint_of 6 ++ varint_of level ++ varint_of number) result out.new }
{
    put_varint32(out, tag::DELETE_FILE)?;
    put_varint32(out, level)?;
    put_varint64(out, number)
}

/// Puts an added file at the end.
fn put_added(out: &mut Bytes, file: &AddFile<'_>) -> Result<(), Memory>
    requires smallest { length file.now.smallest.now < 2 ^ 32 }
    requires largest { length file.now.largest.now < 2 ^ 32 }
    ensures { Extends out.old (added_file_bytes (new_file file.now) file.now.seqs) result out.new }
{
    match file.seqs {
        None => {
            put_varint32(out, tag::ADD_FILE)?;
            put_file(out, file)
        }
        Some(seqs) => put_sequenced(out, file, seqs),
    }
}

/// Puts an added file with these sequence numbers at the end.
fn put_sequenced(out: &mut Bytes, file: &AddFile<'_>, seqs: Seqs) -> Result<(), Memory>
    requires smallest { length file.now.smallest.now < 2 ^ 32 }
    requires largest { length file.now.largest.now < 2 ^ 32 }
    ensures { Extends out.old (added_file_bytes (new_file file.now) (Some seqs)) result out.new }
{
    put_varint32(out, tag::CUSTOM_FILE)?;
    put_file(out, file)?;
    put_sequences(out, seqs)
}

/// Puts the sequence numbers of an added file at the end, and the tag that ends its custom fields.
fn put_sequences(out: &mut Bytes, seqs: Seqs) -> Result<(), Memory>
    ensures { Extends out.old (varint_of seqs.least ++ varint_of seqs.greatest ++ varint_of 1) result out.new }
{
    put_varint64(out, seqs.least)?;
    put_varint64(out, seqs.greatest)?;
    put_varint32(out, END)
}

/// Puts the level, number, size and bounds of an added file at the end.
fn put_file(out: &mut Bytes, file: &AddFile<'_>) -> Result<(), Memory>
    requires smallest { length file.now.smallest.now < 2 ^ 32 }
    requires largest { length file.now.largest.now < 2 ^ 32 }
    ensures { Extends out.old (file_bytes (new_file file.now)) result out.new }
{
    put_varint32(out, file.level)?;
    put_varint64(out, file.number)?;
    put_varint64(out, file.size)?;
    put_prefixed(out, file.smallest)?;
    put_prefixed(out, file.largest)
}

/// Puts a log that is tracked at the end.
fn put_tracked(alloc: Global, out: &mut Bytes, log: u64, synced: Option<u64>) -> Result<(), Memory>
    ensures { Extends out.old (varint_of 8199 ++ prefixed_of (tracked_bytes log synced)) result out.new }
{
    let mut tracked = Bytes::new(alloc);
    put_varint64(&mut tracked, log)?;
    if let Some(size) = synced {
        put_varint32(&mut tracked, SYNCED)?;
        put_varint64(&mut tracked, size)?;
    }
    put_varint32(&mut tracked, END)?;
    put_slice(out, tag::WAL_ADD, tracked.as_slice())
}

/// Puts the log below which none is tracked at the end.
fn put_untracked(alloc: Global, out: &mut Bytes, log: u64) -> Result<(), Memory>
    ensures { Extends out.old (varint_of 8200 ++ prefixed_of (varint_of log)) result out.new }
{
    let mut number = Bytes::new(alloc);
    put_varint64(&mut number, log)?;
    put_slice(out, tag::WAL_DELETE, number.as_slice())
}

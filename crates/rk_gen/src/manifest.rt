//! The manifest, which has one edit.
ghost use Rattle.std.specs.Prelude.{◌≡◌, ◌≤◌, [], ◌∷◌, ◌++◌, flat_map, None, IfOk, OnOk, OnErr};
ghost use Rattle.rk_bytes.specs.Model.Writers.{edit_bytes, field_bytes};
ghost use Rattle.rk_bytes.specs.Model.VersionEdit.{add_file};
ghost use Rattle.rk_bytes.specs.Model.WrittenLogs.{written_log};
ghost use Rattle.rk_gen.specs.Edits.{edit_with_size, stated_numbers, file_with_size};

use crate::numbers::key_with;
use rk_bytes::{Bytes, Memory};
use rk_edit::{AddFile, Field, Seqs, write_field};
use rk_ikey::{Kind, internal_key};
use rk_log::LogWriter;
use std::alloc::Global;

/// The name of the comparator that orders user keys by their bytes.
const BYTEWISE: &[u8] = b"leveldb.BytewiseComparator";

/// The manifest, where the table's file has this size. `Memory` comes only where memory runs out.
pub(crate) fn manifest(alloc: Global, number: u64, size: u64) -> Result<Bytes, Memory>
    requires { number ≤ 100000 }
    ensures { IfOk result (λ manifest. manifest ≡ written_log None (edit_bytes (edit_with_size number size) ∷ [])) }
{
    let edit = edit(alloc, number, size)?;
    let mut log = LogWriter::new(alloc, None);
    log.add(edit.as_slice())?;
    Ok(log.finish())
}

/// The manifest's one edit. `Memory` comes only where memory runs out.
fn edit(alloc: Global, number: u64, size: u64) -> Result<Bytes, Memory>
    requires { number ≤ 100000 }
    ensures { IfOk result (λ edit. edit ≡ edit_bytes (edit_with_size number size)) }
{
    let mut edit = numbers(alloc, number)?;
    put_table(alloc, &mut edit, number, size)?;
    Ok(edit)
}

/// What the edit states before the table. `Memory` comes only where memory runs out.
fn numbers(alloc: Global, number: u64) -> Result<Bytes, Memory>
    ensures { IfOk result (λ edit. edit ≡ flat_map field_bytes (stated_numbers number)) }
{
    let mut edit = Bytes::new(alloc);
    write_field(alloc, &mut edit, &Field::Comparator(BYTEWISE))?;
    write_field(alloc, &mut edit, &Field::LogNumber(5))?;
    write_field(alloc, &mut edit, &Field::NextFile(7))?;
    write_field(alloc, &mut edit, &Field::LastSequence(number))?;
    Ok(edit)
}

/// Puts the table at the end of the edit. Where memory runs out, it changes nothing.
fn put_table(alloc: Global, edit: &mut Bytes, number: u64, size: u64) -> Result<(), Memory>
    requires { number ≤ 100000 }
    ensures ok { OnOk result (edit.new ≡ edit.old ++ field_bytes (add_file (file_with_size number size))) }
    ensures err { OnErr result (edit.new ≡ edit.old) }
{
    let smallest = internal_key(alloc, &key_with(1), 1, Kind::Value)?;
    let largest = internal_key(alloc, &key_with(number), number, Kind::Value)?;
    let file = AddFile {
        level: 0,
        number: 4,
        size,
        smallest: smallest.as_slice(),
        largest: largest.as_slice(),
        seqs: Some(Seqs {
            least: 1,
            greatest: number,
        }),
    };
    write_field(alloc, edit, &Field::AddFile(file))
}

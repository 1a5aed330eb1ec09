ghost use Rattle.std.specs.Prelude.{◌≡◌, ◌+◌, ◌^◌, ◌<◌, ◌≤◌, false, true, [], ◌∷◌, ◌++◌, length, IfOk, IsErr, IsTrue, Ok, OnOk, OnErr};
ghost use Rattle.rk_bytes.specs.declared.model.key.Kind.TheVariants.{RangeDeletion};
ghost use Rattle.rk_bytes.specs.Model.InternalKey.{internal_key, kind_number};
ghost use Rattle.rk_bytes.specs.Model.TableStatus.{Good, is_range_deletion, table_status};
ghost use Rattle.rk_bytes.specs.Model.Writers.{last_entry_key, table_bytes};
ghost use Rattle.rk_laws.specs.WritableTables.{Holds};
ghost use Rattle.rk_block.specs.Building.{built_block, with_entry};
ghost use Rattle.rk_tablew.specs.Data.{EntryPut};
ghost use Rattle.rk_tablew.specs.Writing.{ComesNext, contents_of, range_with, record_with, sizes_if, table_weight};

use crate::data::{RESTART_EVERY, put_entry};
use crate::properties::Sizes;
use crate::table::{Stated, write_table};
use rk_block::{BlockBuilder, History};
use rk_bytes::{Bytes, Memory, put_fixed64};
use rk_ikey::{Kind, ParsedKey, TOP, kind_number};
use rk_laws::written_table;
use std::alloc::Global;
use std::marker::Model;

/// How many bytes an internal key has behind its user key.
const NUMBER_LEN: u64 = 8;

/// Makes an internal key.
#[tactic(auto, unfolding(rk_bytes::specs::Model::InternalKey::internal_key))]
fn fill_key(buffer: &mut Bytes, user: &[u8], sequence: u64, kind: Kind) -> Result<(), Memory>
    requires { sequence ≤ TOP }
    ensures key { OnOk result (buffer.new ≡ internal_key user.now sequence kind) }
    ensures len { OnOk result (length buffer.new ≡ length user.now + 8) }
{
    buffer.truncate(0);
    buffer.append(user)?;
    put_fixed64(buffer, sequence * 256 + u64::from(kind_number(kind)))
}

/// Puts a record into the data blocks. Where memory runs out, some of that may be done.
fn put_record(
    out: &mut Bytes,
    index: &mut BlockBuilder,
    block: &mut BlockBuilder,
    buffer: &mut Bytes,
    alloc: Global,
    key: &ParsedKey<'_>,
    value: &[u8],
) -> Result<(), Memory>
    requires index { length (built_block index.old) + length (last_entry_key block.old.entries) + 52 < 2 ^ 32 }
    requires sequence { key.now.sequence ≤ TOP }
    requires user { length key.now.user.now < 2 ^ 30 }
    requires value { length value.now < 2 ^ 31 }
    ensures { OnOk result (EntryPut out.old index.old block.old (internal_key key.now.user.now key.now.sequence key.now.kind) value.now out.new index.new block.new) }
{
    fill_key(buffer, key.user, key.sequence, key.kind)?;
    put_entry(out, index, block, alloc, buffer.as_slice(), value)
}

/// Puts a range deletion into its block. Where memory runs out, it changes nothing but the buffer.
fn put_range(
    ranges: &mut BlockBuilder,
    buffer: &mut Bytes,
    start: &[u8],
    end: &[u8],
    sequence: u64,
) -> Result<(), Memory>
    requires room { length (built_block ranges.old) + length start.now + length end.now + 40 < 2 ^ 32 }
    requires sequence { sequence ≤ TOP }
    ensures ok { OnOk result (ranges.new ≡ with_entry ranges.old (internal_key start.now sequence RangeDeletion) end.now) }
    ensures grows { OnOk result (length (built_block ranges.new) ≤ length (built_block ranges.old) + length start.now + length end.now + 27) }
    ensures err { OnErr result (ranges.new ≡ ranges.old) }
{
    fill_key(buffer, start, sequence, Kind::RangeDeletion)?;
    ranges.add(buffer.as_slice(), end)
}

/// Notes a record.
fn note_record(notes: &mut History, key: &ParsedKey<'_>, value: &[u8])
    ensures { notes.new.items ≡ notes.old.items ++ (key.now.sequence ∷ kind_number key.now.kind ∷ [], key.now.user.now, value.now) ∷ [] }
{
    notes.note(
        &[key.sequence, u64::from(kind_number(key.kind))],
        key.user,
        value,
    );
}

/// Notes a range deletion.
fn note_range(notes: &mut History, start: &[u8], end: &[u8], sequence: u64)
    ensures { notes.new.items ≡ notes.old.items ++ (sequence ∷ [], start.now, end.now) ∷ [] }
{
    notes.note(&[sequence], start, end);
}

/// The sizes, if a table states them.
fn sizes_if(states_sizes: bool, sizes: Sizes) -> Option<Sizes>
    ensures { result ≡ sizes_if states_sizes sizes }
{
    if states_sizes { Some(sizes) } else { None }
}

/// Writes a table. Contracts see its records and range deletions so far, and whether memory ran out in
/// an addition of a record: then it fails from that on.
#[derive(Drop)]
pub struct TableWriter {
    alloc: Global,
    failed: bool,
    /// The closed data blocks, as they stand in the file.
    out: Bytes,
    index: BlockBuilder,
    /// The open data block.
    block: BlockBuilder,
    ranges: BlockBuilder,
    /// Where internal keys are made.
    buffer: Bytes,
    record_count: u64,
    range_count: u64,
    sizes: Sizes,
    record_notes: History,
    range_notes: History,
}

impl Model for TableWriter {
    ghost use Rattle.std.specs.Prelude.{◌≡◌, false, map};
    ghost use Rattle.rk_tablew.specs.Writing.{Writing, AreInOrder, IsWriting, noted_record, noted_range};

    ghost Value = { Writing };

    ghost view = { λ w. record { records = map noted_record w.record_notes.items; ranges = map noted_range w.range_notes.items; failed = w.failed } };

    ghost invariant = { λ w. w.failed ≡ false → IsWriting (map noted_record w.record_notes.items) (map noted_range w.range_notes.items) w.out w.index w.block w.ranges w.record_count w.range_count w.sizes.keys w.sizes.values × AreInOrder (map noted_record w.record_notes.items) (map noted_range w.range_notes.items) };
}

impl TableWriter {
    /// A table of nothing. Takes no memory yet.
    pub fn new(alloc: Global) -> TableWriter
        ensures { result ≡ record { records = []; ranges = []; failed = false } }
    {
        TableWriter {
            alloc,
            failed: false,
            out: Bytes::new(alloc),
            index: BlockBuilder::new(alloc, 1),
            block: BlockBuilder::new(alloc, RESTART_EVERY),
            ranges: BlockBuilder::new(alloc, 1),
            buffer: Bytes::new(alloc),
            record_count: 0,
            range_count: 0,
            sizes: Sizes { keys: 0, values: 0 },
            record_notes: History::new(),
            range_notes: History::new(),
        }
    }

    /// Adds a record, whose key comes after that of the last one. Where memory runs out, each later
    /// call fails too.
    pub fn add(&mut self, key: &ParsedKey<'_>, value: &[u8]) -> Result<(), Memory>
        requires kind { is_range_deletion key.now.kind ≡ false }
        requires order { ComesNext self.old.records (internal_key key.now.user.now key.now.sequence key.now.kind) }
        requires sequence { key.now.sequence ≤ TOP }
        requires user { length key.now.user.now < 2 ^ 30 }
        requires value { length value.now < 2 ^ 31 }
        requires room { table_weight self.old + length key.now.user.now + 64 < 2 ^ 31 }
        ensures ok { OnOk result (self.new ≡ record self.old { records = self.old.records ++ record_with key.now.user.now key.now.sequence key.now.kind value.now ∷ [] }) }
        ensures err { OnErr result (self.new.failed ≡ true) }
        ensures failed { self.old.failed ≡ true → IsErr result }
    {
        if self.failed {
            return Err(Memory);
        }
        match put_record(
            &mut self.out,
            &mut self.index,
            &mut self.block,
            &mut self.buffer,
            self.alloc,
            key,
            value,
        ) {
            Ok(()) => {
                self.record_count += 1;
                self.sizes.keys += key.user.len() as u64 + NUMBER_LEN;
                self.sizes.values += value.len() as u64;
                note_record(&mut self.record_notes, key, value);
                Ok(())
            }
            Err(memory) => {
                self.failed = true;
                Err(memory)
            }
        }
    }

    /// Adds a range deletion. Where memory runs out, it changes nothing.
    pub fn add_range(&mut self, start: &[u8], end: &[u8], sequence: u64) -> Result<(), Memory>
        requires sequence { sequence ≤ TOP }
        requires start { length start.now < 2 ^ 30 }
        requires end { length end.now < 2 ^ 30 }
        requires room { table_weight self.old + length start.now + length end.now + 64 < 2 ^ 31 }
        ensures ok { OnOk result (self.new ≡ record self.old { ranges = self.old.ranges ++ range_with start.now end.now sequence ∷ [] }) }
        ensures err { OnErr result (self.new ≡ self.old) }
        ensures failed { self.old.failed ≡ true → IsErr result }
    {
        if self.failed {
            return Err(Memory);
        }
        match put_range(&mut self.ranges, &mut self.buffer, start, end, sequence) {
            Ok(()) => {
                self.range_count += 1;
                self.sizes.keys += start.len() as u64 + NUMBER_LEN;
                self.sizes.values += end.len() as u64;
                note_range(&mut self.range_notes, start, end, sequence);
                Ok(())
            }
            Err(memory) => Err(memory),
        }
    }

    /// The table's bytes, in this family, without its sizes. They read again as what was added.
    pub fn finish(self, family: u32, family_name: &[u8]) -> Result<Bytes, Memory>
        requires name { length family_name.now < 2 ^ 30 }
        requires room { table_weight self + length family_name.now < 2 ^ 31 }
        ensures table { IfOk result (λ table. table ≡ table_bytes false (contents_of family family_name.now self)) }
        ensures good { IfOk result (λ table. (good : Good) × (table_status table ≡ Ok good) × Holds (contents_of family family_name.now self) good) }
        ensures failed { self.failed ≡ true → IsErr result }
    {
        self.write(family, family_name, false)
    }

    /// The table's bytes, in this family, with its sizes. They read again as what was added.
    pub fn finish_with_sizes(self, family: u32, family_name: &[u8]) -> Result<Bytes, Memory>
        requires name { length family_name.now < 2 ^ 30 }
        requires room { table_weight self + length family_name.now < 2 ^ 31 }
        ensures table { IfOk result (λ table. table ≡ table_bytes true (contents_of family family_name.now self)) }
        ensures good { IfOk result (λ table. (good : Good) × (table_status table ≡ Ok good) × Holds (contents_of family family_name.now self) good) }
        ensures failed { self.failed ≡ true → IsErr result }
    {
        self.write(family, family_name, true)
    }

    /// The table's bytes, in this family, with its sizes or without them.
    fn write(self, family: u32, name: &[u8], states_sizes: bool) -> Result<Bytes, Memory>
        requires name { length name.now < 2 ^ 30 }
        requires room { table_weight self + length name.now < 2 ^ 31 }
        ensures table { IfOk result (λ table. table ≡ table_bytes states_sizes (contents_of family name.now self)) }
        ensures good { IfOk result (λ table. (good : Good) × (table_status table ≡ Ok good) × Holds (contents_of family name.now self) good) }
        ensures failed { self.failed ≡ true → IsErr result }
    {
        if self.failed {
            return Err(Memory);
        }
        written_table();
        let TableWriter {
            alloc,
            failed: _,
            out,
            index,
            block,
            ranges,
            buffer: _,
            record_count,
            range_count,
            sizes,
            record_notes: _,
            range_notes: _,
        } = self;
        let stated = Stated {
            family,
            name,
            record_count,
            range_count,
            sizes: sizes_if(states_sizes, sizes),
        };
        write_table(alloc, out, index, block, ranges, &stated)
    }
}

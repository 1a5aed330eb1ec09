//! The lines of a log's file, which is read block by block.
ghost use Rattle.std.specs.Prelude.{◌≡◌, ◌+◌, ◌<◌, ◌≤◌, ◌^◌, ℕ, List, Some, IfOk, IfSome, false, true, length, take, min};
ghost use Rattle.rk_bytes.specs.Model.DiskImages.{IsLeft};
ghost use Rattle.rk_bytes.specs.Model.LogItems.{log_items};
ghost use Rattle.rk_disk.specs.Parts.{OfFile};
ghost use Rattle.rk_log.specs.Items.{item_of, is_end};
ghost use Rattle.rk_log.specs.Left.{left, bytes_before};
ghost use Rattle.rk_ldb.specs.Stops.{TookUpTo, DiskCounts, SinkCounts, OutputStops};
ghost use Rattle.rk_ldb.specs.Wrote.{record_word, record_lines, form_lines, dump_lines, WritesBlock};

use crate::batch::write_batch;
use crate::edit::write_edit;
use crate::lines::write_line;
use crate::stop::Stop;
use rk_disk::{Disk, Sink, read_part};
use rk_log::{BLOCK_LEN, FeedItem, Item, LogFeed};
use rk_text::Line;
use std::alloc::Global;

/// What the records of a log's file are.
#[derive(Clone, Copy, Debug, PartialEq, Eq)]
pub(crate) enum Records {
    /// Write batches, as in a write-ahead log.
    Batches,
    /// Version edits, as in a manifest.
    Edits,
}

impl Records {
    /// What a record is called in its line.
    fn word(self) -> &'static str
        ensures { result.now ≡ record_word self }
    {
        match self {
            Records::Batches => "record",
            Records::Edits => "edit",
        }
    }
}

/// How records are shown.
#[derive(Clone, Copy, Debug, PartialEq, Eq)]
pub(crate) struct Form {
    pub(crate) records: Records,
    /// Bytes are shown in hexadecimal, and not between quotation marks.
    pub(crate) hex: bool,
}

/// Writes the lines of a log's file of this name, of which the disk says that it has `size` bytes. Its
/// recyclable headers, if any, hold this number. One buffer serves for all blocks, and one for all lines.
pub(crate) fn write_file<D: Disk, S: Sink>(
    alloc: Global,
    name: &str,
    number: u64,
    size: u64,
    form: Form,
    disk: &mut D,
    out: &mut S,
) -> Result<(), Stop>
    ensures lines { OfFile (D.told disk.old) name.now size (λ bytes. TookUpTo (S.taken out.old) (S.taken out.new) (dump_lines form (log_items number bytes)) result) }
    ensures disk_count { DiskCounts (D.faults disk.old) (D.faults disk.new) result }
    ensures output_count { SinkCounts (S.faults out.old) (S.faults out.new) result }
    ensures left { IsLeft (D.told disk.old) (D.told disk.new) }
{
    let mut buffer = vec![in alloc; 0; BLOCK_LEN]?;
    let mut feed = LogFeed::new(alloc, number);
    let mut line = Line::new(alloc);
    write_blocks(
        name,
        size,
        form,
        &mut buffer,
        &mut feed,
        &mut line,
        disk,
        out,
    )
}

/// Writes the lines of a log's file block by block, from its begin on.
fn write_blocks<D: Disk, S: Sink>(
    name: &str,
    size: u64,
    form: Form,
    buffer: &mut [u8],
    feed: &mut LogFeed,
    line: &mut Line,
    disk: &mut D,
    out: &mut S,
) -> Result<(), Stop>
    requires room { length buffer.old ≡ BLOCK_LEN }
    requires begin { bytes_before feed.old ≡ 0 }
    ensures lines { OfFile (D.told disk.old) name.now size (λ bytes. TookUpTo (S.taken out.old) (S.taken out.new) (dump_lines form (left feed.old bytes).items) result) }
    ensures disk_count { DiskCounts (D.faults disk.old) (D.faults disk.new) result }
    ensures output_count { SinkCounts (S.faults out.old) (S.faults out.new) result }
    ensures left { IsLeft (D.told disk.old) (D.told disk.new) }
{
    let mut at = 0;
    loop {
        let (len, last) = read_part(disk, name, at, size, buffer)?;
        if write_block(feed, &buffer[..len], last, form, line, out)? {
            return Ok(());
        }
        at += BLOCK_LEN as u64;
    }
}

/// Writes the lines of the items that a block ends, and says whether the log's end was among them.
fn write_block<S: Sink>(
    feed: &mut LogFeed,
    block: &[u8],
    last: bool,
    form: Form,
    line: &mut Line,
    out: &mut S,
) -> Result<bool, Stop>
    requires within { length block.now ≤ BLOCK_LEN }
    requires full { last ≡ false → length block.now ≡ BLOCK_LEN }
    requires fits { bytes_before feed.old + length block.now < 2 ^ 64 }
    ensures lines { WritesBlock (S.taken out.old) (S.taken out.new) form feed.old block.now last result feed.new }
    ensures more { IfOk result (λ ended. ended ≡ false → last ≡ false) }
    ensures before { IfOk result (λ ended. ended ≡ false → bytes_before feed.new ≡ bytes_before feed.old + length block.now) }
    ensures counts { OutputStops (S.faults out.old) (S.faults out.new) result }
{
    loop {
        match feed.next(block, last)? {
            FeedItem::Item(item) => {
                if write_item(item, form, line, out)? {
                    return Ok(true);
                }
            }
            FeedItem::More => return Ok(false),
        }
    }
}

/// Writes the lines of an item, and says whether it is the log's end.
fn write_item<S: Sink>(
    item: Item<'_>,
    form: Form,
    line: &mut Line,
    out: &mut S,
) -> Result<bool, Stop>
    ensures lines { TookUpTo (S.taken out.old) (S.taken out.new) (form_lines form (item_of item.entry)) result }
    ensures last { IfOk result (λ ended. ended ≡ is_end (item_of item.entry)) }
    ensures counts { OutputStops (S.faults out.old) (S.faults out.new) result }
{
    line.set_item(&item, form.records.word())?;
    write_line(line.as_slice(), out)?;
    match item {
        Item::Rec(piece, _) => {
            write_record(piece.as_slice(), form, line, out)?;
            Ok(false)
        }
        Item::Gap(..) => Ok(false),
        Item::End(..) => Ok(true),
    }
}

/// Writes the lines of a record's payload.
fn write_record<S: Sink>(
    payload: &[u8],
    form: Form,
    line: &mut Line,
    out: &mut S,
) -> Result<(), Stop>
    ensures lines { TookUpTo (S.taken out.old) (S.taken out.new) (record_lines form.records form.hex payload.now) result }
    ensures counts { OutputStops (S.faults out.old) (S.faults out.new) result }
{
    match form.records {
        Records::Batches => write_batch(payload, form.hex, line, out),
        Records::Edits => write_edit(payload, form.hex, line, out),
    }
}

//! The lines of a log's items.
ghost use Rattle.std.specs.Prelude.{◌≡◌, ◌++◌, [], OnOk, IfOk};
ghost use Rattle.rk_bytes.specs.Model.Lines.{why_word, kind_words, item_line};
ghost use Rattle.rk_bytes.specs.Model.LogItems.{rec, gap, end};
ghost use Rattle.rk_log.specs.Items.{item_of};

use crate::Line;
use rk_bytes::{Bytes, Memory};
use rk_log::{EndKind, GapWhy, Item};
use std::alloc::Global;

/// The line of an item of a log, where the word says what its records are: a record with its place and
/// its payload's length, a gap with its place and its reason, the end with its place and its kind.
/// `Memory` comes only where memory runs out.
pub fn item_line(alloc: Global, item: &Item<'_>, word: &str) -> Result<Bytes, Memory>
    ensures { IfOk result (λ made. made ≡ item_line word.now (item_of item.now)) }
{
    let mut line = Line::new(alloc);
    line.set_item(item, word)?;
    Ok(line.into_bytes())
}

impl Line {
    /// Makes this the line of an item of a log, where the word says what its records are. `Memory`
    /// comes only where memory runs out.
    pub fn set_item(&mut self, item: &Item<'_>, word: &str) -> Result<(), Memory>
        ensures { OnOk result (self.new ≡ item_line word.now (item_of item.now)) }
    {
        self.clear();
        self.put_item(item, word)
    }

    /// Puts the line of an item at the end.
    fn put_item(&mut self, item: &Item<'_>, word: &str) -> Result<(), Memory>
        ensures { OnOk result (self.new ≡ self.old ++ item_line word.now (item_of item.now)) }
    {
        match item {
            Item::Rec(piece, place) => self.put_record(word, piece.as_slice(), *place),
            Item::Gap(why, place) => self.put_gap(*why, *place),
            Item::End(kind, place) => self.put_end(*kind, *place),
        }
    }

    /// Puts the line of a record at the end.
    fn put_record(&mut self, word: &str, payload: &[u8], place: u64) -> Result<(), Memory>
        ensures { OnOk result (self.new ≡ self.old ++ item_line word.now (rec payload.now place)) }
    {
        self.put(word.as_bytes())?;
        self.put_number(place)?;
        self.put_number(payload.len() as u64)?;
        self.end()
    }

    /// Puts the line of a gap at the end.
    fn put_gap(&mut self, why: GapWhy, place: u64) -> Result<(), Memory>
        ensures { OnOk result (self.new ≡ self.old ++ item_line [] (gap why place)) }
    {
        self.put(b"gap")?;
        self.put_number(place)?;
        self.put(b" ")?;
        self.put(why_word(why).as_bytes())?;
        self.end()
    }

    /// Puts the line of a log's end at the end.
    fn put_end(&mut self, kind: EndKind, place: u64) -> Result<(), Memory>
        ensures { OnOk result (self.new ≡ self.old ++ item_line [] (end kind place)) }
    {
        self.put(b"end")?;
        self.put_number(place)?;
        self.put(b" ")?;
        self.put_kind(kind)?;
        self.end()
    }

    /// Puts how a log ends at the end.
    fn put_kind(&mut self, kind: EndKind) -> Result<(), Memory>
        ensures { OnOk result (self.new ≡ self.old ++ kind_words kind) }
    {
        match kind {
            EndKind::Clean => self.put(b"Clean"),
            EndKind::Torn => self.put(b"Torn"),
            EndKind::Stale => self.put(b"Stale"),
            EndKind::Unsupported(number) => {
                self.put_with_number(b"Unsupported", u64::from(number))
            }
        }
    }
}

/// Why a piece of a log is left out.
pub(crate) fn why_word(why: GapWhy) -> &'static str
    ensures { result.now ≡ why_word why }
{
    match why {
        GapWhy::Checksum => "Checksum",
        GapWhy::Length => "Length",
        GapWhy::UnknownType => "UnknownType",
        GapWhy::MissingStart => "MissingStart",
        GapWhy::MissingEnd => "MissingEnd",
        GapWhy::Mixed => "Mixed",
    }
}

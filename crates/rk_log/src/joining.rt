//! The joining of a log's marks into items, which holds one unfinished record.
ghost use Rattle.std.specs.Prelude.{◌≡◌, true, Some, None, [], is_some};
ghost use Rattle.rk_bytes.specs.Model.LogItems.{begins_record, end};
ghost use Rattle.rk_log.specs.Items.{item_of, is_end};

use crate::fragment::Mark;
use crate::{Item, Piece};
use rk_bytes::model::{EndKind, GapWhy};
use rk_bytes::{Bytes, Memory};
use std::alloc::Global;

/// A record of which no last part was seen yet.
#[derive(Debug, Drop)]
struct Unfinished {
    /// The payload so far.
    payload: Bytes,
    /// The place of its first header.
    place: u64,
}

/// The end of a log's reading.
#[derive(Clone, Copy, Debug)]
struct End {
    kind: EndKind,
    place: u64,
}

/// What the marks so far leave to be joined with those that follow.
#[derive(Debug, Drop)]
pub(crate) struct Joining {
    alloc: Global,
    unfinished: Option<Unfinished>,
    /// The end, once it was given.
    given: Option<End>,
}

impl Joining {
    ghost use Rattle.std.specs.Prelude.{ℕ, List};
    ghost use Rattle.rk_bytes.specs.Model.LogMarks.{Mark as Told, up_to_end};
    ghost use Rattle.rk_log.specs.Fragments.{mark_at};
    ghost use Rattle.rk_log.specs.Left.{Gives, left_of, left_behind};
    ghost use Rattle.rk_log.specs.Steps.{Takes, BreaksOff, GivesAgain, end_in};

    /// Before the first mark.
    pub(crate) fn new(alloc: Global) -> Joining
        ensures marks { (file_len : ℕ) (marks : List Told) → left_behind result file_len marks ≡ left_of None (up_to_end file_len marks) }
        ensures given { result.given ≡ None }
    {
        Joining {
            alloc,
            unfinished: None,
            given: None,
        }
    }

    /// Takes the mark at this place, and gives the item that it ends, if it ends one. An unfinished
    /// record was broken off before a mark that begins one.
    pub(crate) fn take<'b>(
        &mut self,
        mark: Mark<'b>,
        place: u64,
    ) -> Result<Option<Item<'b>>, Memory>
        requires goes_on { self.old.given ≡ None }
        requires begins { begins_record (mark_at place mark) ≡ true → self.old.unfinished ≡ None }
        ensures { Takes self.old (mark_at place mark.entry) result self.new }
    {
        match mark {
            Mark::Full(payload) => Ok(Some(Item::Rec(Piece::Whole(payload), place))),
            Mark::First(payload) => {
                let payload = Bytes::copy_of(self.alloc, payload)?;
                self.unfinished = Some(Unfinished { payload, place });
                Ok(None)
            }
            Mark::Middle(payload) => {
                let Some(mut record) = self.unfinished.take() else {
                    return Ok(Some(Item::Gap(GapWhy::MissingStart, place)));
                };
                let appended = record.payload.append(payload);
                self.unfinished = Some(record);
                appended?;
                Ok(None)
            }
            Mark::Last(payload) => {
                let Some(mut record) = self.unfinished.take() else {
                    return Ok(Some(Item::Gap(GapWhy::MissingStart, place)));
                };
                match record.payload.append(payload) {
                    Ok(()) => {
                        let Unfinished { payload, place } = record;
                        Ok(Some(Item::Rec(Piece::Joined(payload), place)))
                    }
                    Err(memory) => {
                        self.unfinished = Some(record);
                        Err(memory)
                    }
                }
            }
            Mark::Fault(why) => {
                self.unfinished = None;
                Ok(Some(Item::Gap(why, place)))
            }
            Mark::Cut => Ok(Some(self.cut_off(EndKind::Torn, place))),
            Mark::Stale => Ok(Some(self.end(EndKind::Stale, place))),
            Mark::Unsupported(kind) => Ok(Some(self.end(EndKind::Unsupported(kind), place))),
        }
    }

    /// Takes the end of a file of this length.
    pub(crate) fn finish<'b>(&mut self, file_len: u64) -> Item<'b>
        requires { self.old.given ≡ None }
        ensures left { Gives (left_behind self.old file_len []) (item_of result) (left_behind self.new file_len []) }
        ensures ends { is_end (item_of result) ≡ true }
        ensures given { is_some self.new.given ≡ true }
    {
        self.cut_off(EndKind::Clean, file_len)
    }

    /// Ends the reading.
    fn end<'b>(&mut self, kind: EndKind, place: u64) -> Item<'b>
        ensures given { self.new.given ≡ Some (record { kind = kind; place = place }) }
        ensures item { item_of result ≡ end kind place }
    {
        self.unfinished = None;
        self.given = Some(End { kind, place });
        Item::End(kind, place)
    }

    /// Ends the reading: within the unfinished record, if there is one, else as this kind says.
    fn cut_off<'b>(&mut self, kind: EndKind, place: u64) -> Item<'b>
        ensures given { self.new.given ≡ Some (end_in self.old.unfinished kind place) }
        ensures item { let one = end_in self.old.unfinished kind place in item_of result ≡ end one.kind one.place }
    {
        match self.unfinished.take() {
            Some(record) => self.end(EndKind::Torn, record.place),
            None => self.end(kind, place),
        }
    }

    /// Breaks off an unfinished record, before a mark that begins one, and says so.
    pub(crate) fn break_off<'b>(&mut self) -> Option<Item<'b>>
        requires goes_on { self.old.given ≡ None }
        ensures broken { BreaksOff self.old result self.new }
        ensures given { self.new.given ≡ None }
        ensures unfinished { self.new.unfinished ≡ None }
    {
        let record = self.unfinished.take()?;
        Some(Item::Gap(GapWhy::MissingEnd, record.place))
    }

    /// The end, once it was given.
    pub(crate) fn given<'b>(&self) -> Option<Item<'b>>
        ensures { GivesAgain self.now result }
    {
        let End { kind, place } = self.given?;
        Some(Item::End(kind, place))
    }
}

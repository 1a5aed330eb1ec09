//! What is shown of a key.
ghost use Rattle.std.specs.Prelude.{◌≡◌, ◌∷◌, ◌^◌, slice_get, true, Some, IfOk, OnErr};
ghost use Rattle.rk_bytes.specs.Model.InternalKey.{packed_of};
ghost use Rattle.rk_bytes.specs.Model.KeyView.{answer, view_records, deciding, shown, operands, base_value};
ghost use Rattle.rk_view.specs.Sources.{merged, AreRuns};
ghost use Rattle.rk_view.specs.Shown.{answer_of, is_merged, shown_below, answer_in};

use crate::State;
use crate::cursor::Cursors;
use crate::next::{is_at, is_shown};
use crate::place::{Place, number};
use rk_bytes::{Bytes, Memory, Seq};
use rk_ikey::{Kind, Record};
use rk_tomb::TombSet;
use std::alloc::Global;

/// What is shown of a key.
#[derive(Debug, Drop)]
pub enum Answer<'a> {
    /// Its value.
    Found(&'a [u8]),
    /// Nothing.
    Absent,
    /// What is to be merged.
    Merge(Operands),
}

/// The operands of merges, which are shown and not combined.
#[derive(Debug, Drop)]
pub struct Operands {
    pub newest_first: Seq<Bytes>,
    /// The value that they are to be applied to, if there is one.
    pub base: Option<Bytes>,
}

/// What the state shows of a key of the family with this id: the value of its newest record that no range
/// deletion covers, nothing where there is none or that deletes the key, and of merges their operands.
/// `Memory` comes only at merges, where memory runs out.
pub fn view_get<'a>(
    alloc: Global,
    state: &'a State,
    family: u32,
    key: &[u8],
) -> Result<Answer<'a>, Memory>
    ensures shown { IfOk result (λ shown. answer_of shown ≡ answer state.now.state family key.now) }
    ensures memory { OnErr result (is_merged (answer state.now.state family key.now) ≡ true) }
{
    let cursors = Cursors::of(state, &all_of(family, key));
    match cursors.first() {
        None => Ok(Answer::Absent),
        Some(first) => {
            if is_at(first, family, key) {
                answer_at(alloc, state.tombs(), &cursors, first)
            } else {
                Ok(Answer::Absent)
            }
        }
    }
}

/// The records that decide what is shown of a key of the family with this id, the newest first: merges, and
/// the put behind them, if there is one. `Memory` comes only where memory runs out.
pub fn view_records(
    alloc: Global,
    state: &State,
    family: u32,
    key: &[u8],
) -> Result<Seq<Record>, Memory>
    ensures { IfOk result (λ records. records ≡ view_records state.now.state family key.now) }
{
    let mut records = Seq::new(alloc);
    let mut below = ABOVE_ALL;
    let mut cursors = Cursors::of(state, &all_of(family, key));
    while let Some(next) = cursors.next_shown(state.tombs(), family, key, below) {
        match next.kind {
            Kind::Merge => records.push(next.copy(alloc)?)?,
            Kind::Value => {
                records.push(next.copy(alloc)?)?;
                return Ok(records);
            }
            _ => return Ok(records),
        }
        below = number(next);
    }
    Ok(records)
}

/// A number above that of each record in its internal key.
pub(crate) const ABOVE_ALL: u128 = 1 << 64;

/// The place before all records of a key.
fn all_of<'k>(family: u32, user: &'k [u8]) -> Place<'k>
    ensures family { result.family ≡ family }
    ensures user { result.user.now ≡ user.now }
    ensures below { result.below ≡ 2 ^ 64 }
{
    Place {
        family,
        user,
        below: ABOVE_ALL,
    }
}

/// What is shown of the key of the first record.
pub(crate) fn answer_at<'a>(
    alloc: Global,
    tombs: &TombSet,
    cursors: &Cursors<'a>,
    first: &'a Record,
) -> Result<Answer<'a>, Memory>
    requires runs { AreRuns cursors.now }
    requires first { slice_get (merged cursors.now) 0 ≡ Some first.now }
    ensures shown { IfOk result (λ shown. answer_of shown ≡ answer_in tombs.now first.now.family first.now.key (merged cursors.now)) }
    ensures memory { OnErr result (is_merged (answer_in tombs.now first.now.family first.now.key (merged cursors.now)) ≡ true) }
{
    if is_shown(tombs, first) {
        return answer_of_newest(alloc, tombs, cursors, first);
    }
    let mut ahead = cursors.copy();
    match ahead.next_shown(tombs, first.family, first.key.as_slice(), number(first)) {
        Some(newest) => answer_of_newest(alloc, tombs, &ahead, newest),
        None => Ok(Answer::Absent),
    }
}

/// What the newest record of a key shows that no range deletion covers, with those behind it.
fn answer_of_newest<'a>(
    alloc: Global,
    tombs: &TombSet,
    cursors: &Cursors<'a>,
    newest: &'a Record,
) -> Result<Answer<'a>, Memory>
    ensures shown { IfOk result (λ answer. answer_of answer ≡ shown (deciding (newest.now ∷ shown_below tombs.now newest.now.family newest.now.key (packed_of newest.now.sequence newest.now.kind) (merged cursors.now)))) }
    ensures memory { OnErr result (is_merged (shown (deciding (newest.now ∷ shown_below tombs.now newest.now.family newest.now.key (packed_of newest.now.sequence newest.now.kind) (merged cursors.now)))) ≡ true) }
{
    match newest.kind {
        Kind::Value => Ok(Answer::Found(newest.value.as_slice())),
        Kind::Merge => {
            let behind = cursors.copy();
            Ok(Answer::Merge(merges_from(alloc, tombs, behind, newest)?))
        }
        _ => Ok(Answer::Absent),
    }
}

/// The operands of a merge and of those behind it that decide with it what is shown of their key.
fn merges_from(
    alloc: Global,
    tombs: &TombSet,
    mut behind: Cursors<'_>,
    newest: &Record,
) -> Result<Operands, Memory>
    ensures values { IfOk result (λ shown. shown.newest_first ≡ newest.now.value ∷ operands (deciding (shown_below tombs.now newest.now.family newest.now.key (packed_of newest.now.sequence newest.now.kind) (merged behind.entry)))) }
    ensures base { IfOk result (λ shown. shown.base ≡ base_value (deciding (shown_below tombs.now newest.now.family newest.now.key (packed_of newest.now.sequence newest.now.kind) (merged behind.entry)))) }
{
    let mut newest_first = Seq::new(alloc);
    newest_first.push(Bytes::copy_of(alloc, newest.value.as_slice())?)?;
    let mut base = None;
    let mut below = number(newest);
    while let Some(next) = behind.next_shown(tombs, newest.family, newest.key.as_slice(), below) {
        let value = Bytes::copy_of(alloc, next.value.as_slice())?;
        match next.kind {
            Kind::Merge => newest_first.push(value)?,
            Kind::Value => {
                base = Some(value);
                return Ok(Operands { newest_first, base });
            }
            _ => return Ok(Operands { newest_first, base }),
        }
        below = number(next);
    }
    Ok(Operands { newest_first, base })
}

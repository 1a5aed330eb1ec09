//! The walk over what is shown of a family's keys.
ghost use Rattle.std.specs.Prelude.{◌≡◌, [], List, unwrap_or, MatchOption};
ghost use Rattle.std.specs.Option.{option_copied};
ghost use Rattle.rk_bytes.specs.declared.model.view.Tomb.{Tomb};
ghost use Rattle.rk_bytes.specs.Model.KeyView.{rows};
ghost use Rattle.rk_view.specs.Sources.{merged};
ghost use Rattle.rk_view.specs.Shown.{answer_of, rows_left, IsFrom, IsNextKey, GivesRow, IsShownAt, is_below};

use crate::answer::{ABOVE_ALL, Answer, answer_at};
use crate::cursor::Cursors;
use crate::place::Place;
use crate::state::State;
use rk_bytes::Memory;
use rk_ikey::Record;
use rk_tomb::TombSet;
use std::alloc::Global;
use std::marker::Model;

/// A key, and what is shown of it.
#[derive(Debug, Drop)]
pub struct Row<'a> {
    pub key: &'a [u8],
    pub answer: Answer<'a>,
}

/// The rows of a family that are left, in rising order of their keys. Contracts see them as a list.
#[derive(Debug, Drop)]
pub struct ViewIter<'a> {
    alloc: Global,
    tombs: &'a TombSet,
    family: u32,
    to: Option<&'a [u8]>,
    /// The records that come after the last key.
    cursors: Cursors<'a>,
}

impl<'a> Model for ViewIter<'a> {
    ghost use Rattle.std.specs.Prelude.{List};
    ghost use Rattle.std.specs.Option.{option_copied};
    ghost use Rattle.rk_bytes.specs.Model.KeyView.{Row};
    ghost use Rattle.rk_view.specs.Sources.{merged};
    ghost use Rattle.rk_view.specs.Shown.{rows_left, IsFrom};

    ghost Value = { List Row };

    ghost view = { λ w. rows_left w.tombs.now w.family (option_copied w.to) w.cursors };

    ghost invariant = { λ w. IsFrom w.family (merged w.cursors) };
}

/// The rows of the family with this id from one key on, which is included, up to another, which isn't. Takes
/// no memory.
pub fn view_iter<'a>(
    alloc: Global,
    state: &'a State,
    family: u32,
    from: Option<&'a [u8]>,
    to: Option<&'a [u8]>,
) -> ViewIter<'a>
    ensures { result ≡ rows state.now.state family (option_copied from.entry) (option_copied to.entry) }
{
    let start = Place {
        family,
        user: start_of(from),
        below: ABOVE_ALL,
    };
    let cursors = Cursors::of(state, &start);
    ViewIter {
        alloc,
        tombs: state.tombs(),
        family,
        to,
        cursors,
    }
}

/// The key from which a walk begins: the empty one, where none is given.
fn start_of<'a>(from: Option<&'a [u8]>) -> &'a [u8]
    ensures { result.now ≡ unwrap_or (option_copied from.entry) [] }
{
    match from {
        Some(key) => key,
        None => &[],
    }
}

impl<'a> ViewIter<'a> {
    /// The next row, or `None` where none is left. `Memory` comes only where the next row is of merges and memory
    /// runs out, and leaves the rows that are left as they were.
    pub fn next_row(&mut self) -> Result<Option<Row<'a>>, Memory>
        ensures { GivesRow self.old result self.new }
    {
        next_row(
            self.alloc,
            self.tombs,
            self.family,
            self.to,
            &mut self.cursors,
        )
    }
}

/// The next row of a family below an end, if there is one.
fn next_row<'a>(
    alloc: Global,
    tombs: &TombSet,
    family: u32,
    to: Option<&[u8]>,
    cursors: &mut Cursors<'a>,
) -> Result<Option<Row<'a>>, Memory>
    requires { IsFrom family (merged cursors.old) }
    ensures from { IsFrom family (merged cursors.new) }
    ensures row { GivesRow (rows_left tombs.now family (option_copied to.entry) cursors.old) result (rows_left tombs.now family (option_copied to.entry) cursors.new) }
{
    while let Some(first) = next_key(cursors, family, to) {
        let key = first.key.as_slice();
        let answer = answer_at(alloc, tombs, cursors, first)?;
        cursors.skip(&Place {
            family,
            user: key,
            below: 0,
        });
        if is_shown(&answer) {
            return Ok(Some(Row { key, answer }));
        }
    }
    Ok(None)
}

/// The first record of what is left, if it is of the family and below an end, if there is one.
fn next_key<'a>(cursors: &Cursors<'a>, family: u32, to: Option<&[u8]>) -> Option<&'a Record>
    requires { IsFrom family (merged cursors.now) }
    ensures { MatchOption result ((tombs : List Tomb) → rows_left tombs family (option_copied to.entry) cursors.now ≡ [])
        (λ next. IsNextKey family (option_copied to.entry) cursors.now next.now) }
{
    match cursors.first() {
        None => None,
        Some(first) => {
            if first.family != family {
                None
            } else if is_before(first.key.as_slice(), to) {
                Some(first)
            } else {
                None
            }
        }
    }
}

/// Whether anything is shown.
fn is_shown(answer: &Answer<'_>) -> bool
    ensures { IsShownAt result (answer_of answer.now) }
{
    match answer {
        Answer::Absent => false,
        _ => true,
    }
}

/// Whether a key is below an end, if there is one.
fn is_before(key: &[u8], to: Option<&[u8]>) -> bool
    ensures { result ≡ is_below (option_copied to.entry) key.now }
{
    match to {
        Some(end) => key.cmp(end).is_lt(),
        None => true,
    }
}

//! Two runs become one.
ghost use Rattle.std.specs.Prelude.{◌≡◌, ◌+◌, ◌<◌, ◌≤◌, [], drop, length, slice_get, vec_capacity, IfSome};
ghost use Rattle.rk_bytes.specs.Model.Records.{over};
ghost use Rattle.rk_view.specs.Maps.{IsRun, run_map};
ghost use Rattle.rk_view.specs.Merged.{AreFilled, IsRest, left_of, order_of, first_taken};

use crate::place::cmp_slots;
use crate::run::Run;
use crate::sort::turned;
use rk_ikey::Record;
use std::alloc::Global;
use std::cmp::Ordering;

/// What is left of a run: of one part, turned round, and the parts behind it, of which the next is the last.
#[derive(Drop)]
struct Rest {
    turned: Vec<Record>,
    parts: Vec<Vec<Record>>,
}

/// Moves the records of two runs into an empty list that has room for them, in the order of their slots. Of
/// one slot the younger run's record is kept.
pub fn merge(alloc: Global, older: Run, younger: Run, merged: &mut Vec<Record>)
    requires older { IsRun older }
    requires younger { IsRun younger }
    requires empty { merged.old.items ≡ [] }
    requires room { length older + length younger ≤ vec_capacity merged.old }
    ensures run { IsRun merged.new.items }
    ensures map { run_map merged.new.items ≡ over (run_map older) (run_map younger) }
{
    let mut old = rest_of(alloc, older);
    let mut young = rest_of(alloc, younger);
    while let Some(least) = pop_least(&mut old, &mut young) {
        merged.push_reserved(least);
    }
}

/// All of a run.
fn rest_of(alloc: Global, run: Run) -> Rest
    ensures rest { IsRest result }
    ensures left { left_of result ≡ run }
{
    let mut parts = run.into_parts();
    parts.as_mut_slice().reverse();
    let mut rest = Rest {
        turned: Vec::new(alloc),
        parts,
    };
    refill(&mut rest);
    rest
}

/// Goes on to the next part, where nothing is left of the one before it.
fn refill(rest: &mut Rest)
    requires { AreFilled rest.old.parts.items }
    ensures rest { IsRest rest.new }
    ensures left { left_of rest.new ≡ left_of rest.old }
{
    if rest.turned.is_empty() {
        if let Some(part) = rest.parts.pop() {
            rest.turned = turned(part);
        }
    }
}

/// Takes the first record that is left.
fn pop_first(rest: &mut Rest) -> Option<Record>
    requires { IsRest rest.old }
    ensures first { result ≡ slice_get (left_of rest.old) 0 }
    ensures left { left_of rest.new ≡ drop 1 (left_of rest.old) }
    ensures rest { IsRest rest.new }
{
    let first = rest.turned.pop();
    refill(rest);
    first
}

/// Takes the record that comes first of what is left of two runs. Of one slot the younger run's is taken, and
/// the other is dropped.
fn pop_least(older: &mut Rest, younger: &mut Rest) -> Option<Record>
    requires older { IsRest older.old }
    requires younger { IsRest younger.old }
    ensures taken { (result, left_of older.new, left_of younger.new) ≡ first_taken (left_of older.old) (left_of younger.old) }
    ensures older { IsRest older.new }
    ensures younger { IsRest younger.new }
{
    match order(older, younger) {
        Ordering::Less => pop_first(older),
        Ordering::Greater => pop_first(younger),
        Ordering::Equal => {
            pop_first(older);
            pop_first(younger)
        }
    }
}

/// How the first records that are left of two runs are ordered; a run of which nothing is left comes last.
fn order(older: &Rest, younger: &Rest) -> Ordering
    requires older { IsRest older.now }
    requires younger { IsRest younger.now }
    ensures { result ≡ order_of (left_of older.now) (left_of younger.now) }
{
    match (older.turned.last(), younger.turned.last()) {
        (Some(a), Some(b)) => cmp_slots(a, b),
        (Some(_), None) => Ordering::Less,
        (None, Some(_)) => Ordering::Greater,
        (None, None) => Ordering::Equal,
    }
}

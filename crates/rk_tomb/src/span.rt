ghost use Rattle.std.specs.Prelude.{◌≡◌, ◌<◌, length};
ghost use Rattle.rk_bytes.specs.declared.model.view.Tomb.{Tomb};
ghost use Rattle.rk_tomb.specs.Spans.{start_of, end_of, tomb_at, IsUpTo, IsInRange, IsWithin};

use crate::Tomb;
use crate::edge::{Edge, cmp_edges};

/// What range deletions of a list have in common.
#[derive(Clone, Copy, Debug)]
pub struct Span {
    /// The place of one that starts first.
    pub first: usize,
    /// The place of one that ends last.
    pub last: usize,
    /// The greatest sequence number.
    pub newest: u64,
}

impl Span {
    /// The span of one range deletion.
    pub fn of(tombs: &[Tomb], place: usize) -> Span
        requires { place < length tombs.now }
        ensures range { IsInRange (length tombs.now) result }
        ensures within { IsWithin tombs.now result (tomb_at tombs.now place) }
    {
        Span {
            first: place,
            last: place,
            newest: tombs[place].sequence,
        }
    }

    /// The span of what is within either.
    pub fn joined(&self, tombs: &[Tomb], other: &Span) -> Span
        requires range { IsInRange (length tombs.now) self.now }
        requires other_range { IsInRange (length tombs.now) other.now }
        ensures range { IsInRange (length tombs.now) result }
        ensures within { (tomb : Tomb) → IsWithin tombs.now self.now tomb → IsWithin tombs.now result tomb }
        ensures other_within { (tomb : Tomb) → IsWithin tombs.now other.now tomb → IsWithin tombs.now result tomb }
    {
        Span {
            first: first_of(tombs, self.first, other.first),
            last: last_of(tombs, self.last, other.last),
            newest: self.newest.max(other.newest),
        }
    }
}

/// Of two places that whose range deletion starts first.
fn first_of(tombs: &[Tomb], a: usize, b: usize) -> usize
    requires a_in { a < length tombs.now }
    requires b_in { b < length tombs.now }
    ensures range { result < length tombs.now }
    ensures a { IsUpTo (start_of (tomb_at tombs.now result)) (start_of (tomb_at tombs.now a)) }
    ensures b { IsUpTo (start_of (tomb_at tombs.now result)) (start_of (tomb_at tombs.now b)) }
{
    if cmp_edges(Edge::start(&tombs[a]), Edge::start(&tombs[b])).is_gt() {
        b
    } else {
        a
    }
}

/// Of two places that whose range deletion ends last.
fn last_of(tombs: &[Tomb], a: usize, b: usize) -> usize
    requires a_in { a < length tombs.now }
    requires b_in { b < length tombs.now }
    ensures range { result < length tombs.now }
    ensures a { IsUpTo (end_of (tomb_at tombs.now a)) (end_of (tomb_at tombs.now result)) }
    ensures b { IsUpTo (end_of (tomb_at tombs.now b)) (end_of (tomb_at tombs.now result)) }
{
    if cmp_edges(Edge::end(&tombs[a]), Edge::end(&tombs[b])).is_gt() {
        a
    } else {
        b
    }
}

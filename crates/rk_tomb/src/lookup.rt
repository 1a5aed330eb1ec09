ghost use Rattle.std.specs.Prelude.{◌≡◌, ◌≤◌, max, length, IsTrue};
ghost use Rattle.std.specs.Ordering.{is_gt};
ghost use Rattle.rk_bytes.specs.Model.InternalKey.{packed_of, internal_key, key_cmp};
ghost use Rattle.rk_bytes.specs.Model.KeyView.{lies_within, covers};
ghost use Rattle.rk_bytes.specs.declared.model.view.Tomb.{Tomb};
ghost use Rattle.rk_tomb.specs.Bounds.{HasWholeBounds};
ghost use Rattle.rk_tomb.specs.Weights.{record_of, weight};
ghost use Rattle.rk_tomb.specs.Spans.{edge_cmp, IsWithin, IsInRange};

use crate::edge::{Edge, cmp_edges};
use crate::span::Span;
use crate::{Cut, Tomb};
use rk_ikey::{Kind, TOP, kind_number, split_key};
use std::cmp::Ordering;

/// The record of which it is asked what covers it.
#[derive(Clone, Copy)]
pub struct Lookup<'a> {
    pub family: u32,
    pub user: &'a [u8],
    /// At most `TOP`.
    pub sequence: u64,
    pub kind: Kind,
}

impl Lookup<'_> {
    /// The newest of a number and of the range deletion's sequence number, if that covers the record.
    #[tactic(auto, unfolding(crate::specs::Weights::weight))]
    pub fn newest_of(&self, tomb: &Tomb, floor: u64) -> u64
        requires sequence { self.now.sequence ≤ TOP }
        requires bounds { HasWholeBounds tomb.now.cut }
        ensures { result ≡ max floor (weight (record_of self.now) tomb.now) }
    {
        if self.is_covered_by(tomb) {
            floor.max(tomb.sequence)
        } else {
            floor
        }
    }

    /// Whether no range deletion of the span is newer than a number and covers the record. It may be
    /// false where that is so.
    pub fn is_missed_by(&self, tombs: &[Tomb], span: &Span, floor: u64) -> bool
        requires { IsInRange (length tombs.now) span.now }
        ensures { IsTrue result → (tomb : Tomb) → IsWithin tombs.now span.now tomb → weight (record_of self.now) tomb ≤ floor }
    {
        span.newest <= floor
            || self.is_before(Edge::start(&tombs[span.first]))
            || !self.is_before(Edge::end(&tombs[span.last]))
    }

    /// Whether the record's key comes before an edge.
    fn is_before(&self, edge: Edge<'_>) -> bool
        ensures { result ≡ is_gt (edge_cmp (edge.entry.family, edge.entry.key.now) (self.now.family, self.now.user.now)) }
    {
        let own = Edge {
            family: self.family,
            key: self.user,
        };
        cmp_edges(edge, own).is_gt()
    }

    /// Whether the range deletion covers the record.
    #[tactic(auto, unfolding(rk_bytes::specs::Model::KeyView::covers))]
    fn is_covered_by(&self, tomb: &Tomb) -> bool
        requires sequence { self.now.sequence ≤ TOP }
        requires bounds { HasWholeBounds tomb.now.cut }
        ensures { result ≡ covers tomb.now (record_of self.now) }
    {
        tomb.family == self.family
            && tomb.start.as_slice().cmp(self.user).is_le()
            && self.user.cmp(tomb.end.as_slice()).is_lt()
            && self.sequence < tomb.sequence
            && match &tomb.cut {
                None => true,
                Some(cut) => self.is_inside(cut),
            }
    }

    /// Whether the record's internal key lies from the one bound to the other, both included.
    fn is_inside(&self, cut: &Cut) -> bool
        requires sequence { self.now.sequence ≤ TOP }
        requires smallest { 8 ≤ length cut.now.smallest }
        requires largest { 8 ≤ length cut.now.largest }
        ensures { result ≡ lies_within cut.now.smallest cut.now.largest (internal_key self.now.user.now self.now.sequence self.now.kind) }
    {
        self.cmp_smallest(cut.smallest.as_slice()).is_le()
            && self.cmp_largest(cut.largest.as_slice()).is_le()
    }

    /// How a bound and the record's internal key are ordered.
    fn cmp_smallest(&self, smallest: &[u8]) -> Ordering
        requires sequence { self.now.sequence ≤ TOP }
        requires bound { 8 ≤ length smallest.now }
        ensures { result ≡ key_cmp smallest.now (internal_key self.now.user.now self.now.sequence self.now.kind) }
    {
        let (user, packed) = split_key(smallest);
        user.cmp(self.user).then(self.packed().cmp(&packed))
    }

    /// How the record's internal key and a bound are ordered.
    fn cmp_largest(&self, largest: &[u8]) -> Ordering
        requires sequence { self.now.sequence ≤ TOP }
        requires bound { 8 ≤ length largest.now }
        ensures { result ≡ key_cmp (internal_key self.now.user.now self.now.sequence self.now.kind) largest.now }
    {
        let (user, packed) = split_key(largest);
        self.user.cmp(user).then(packed.cmp(&self.packed()))
    }

    /// The number after the user key in the record's internal key.
    fn packed(&self) -> u64
        requires { self.now.sequence ≤ TOP }
        ensures { result ≡ packed_of self.now.sequence self.now.kind }
    {
        self.sequence * 256 + u64::from(kind_number(self.kind))
    }
}

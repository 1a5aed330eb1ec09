ghost use Rattle.std.specs.Prelude.{◌≡◌};
ghost use Rattle.rk_tomb.specs.Spans.{start_of, end_of, edge_cmp};

use crate::Tomb;
use std::cmp::Ordering;

/// Where a range deletion starts or ends: a user key of a family.
#[derive(Clone, Copy)]
pub struct Edge<'a> {
    pub family: u32,
    pub key: &'a [u8],
}

impl<'a> Edge<'a> {
    /// Where the range deletion starts.
    pub fn start(tomb: &'a Tomb) -> Edge<'a>
        ensures { (result.family, result.key.now) ≡ start_of tomb.now }
    {
        Edge {
            family: tomb.family,
            key: tomb.start.as_slice(),
        }
    }

    /// Where the range deletion ends.
    pub fn end(tomb: &'a Tomb) -> Edge<'a>
        ensures { (result.family, result.key.now) ≡ end_of tomb.now }
    {
        Edge {
            family: tomb.family,
            key: tomb.end.as_slice(),
        }
    }
}

/// How two edges are ordered: by their families, and those of one family by their keys.
#[tactic(auto, unfolding(crate::specs::Spans::edge_cmp))]
pub fn cmp_edges(a: Edge<'_>, b: Edge<'_>) -> Ordering
    ensures { result ≡ edge_cmp (a.entry.family, a.entry.key.now) (b.entry.family, b.entry.key.now) }
{
    a.family.cmp(&b.family).then(a.key.cmp(b.key))
}

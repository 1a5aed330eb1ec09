//! An index of range deletions, which stand in a list in any order.
//!
//! Each has a node. The nodes stand in runs, whose lengths are falling powers of two, as the number's binary
//! digits say; a node that is added makes a run of its own, and runs of one length become one. In a run the
//! nodes are sorted by the starts of their range deletions, and each knows the span of the part of which it
//! is the middle, as in a binary tree: so a part that no range deletion of which can cover a record is passed
//! over as a whole.
ghost use Rattle.std.specs.Prelude.{◌≡◌, ◌-◌, ◌<◌, ◌≤◌, length, take, IfSome, IfNone, OnOk, OnErr, [], ◌∷◌, ◌++◌};
ghost use Rattle.std.specs.List.{All};
ghost use Rattle.std.specs.List.Sorted.{IsPermutation};
ghost use Rattle.rk_bytes.specs.declared.model.view.Tomb.{Tomb};
ghost use Rattle.rk_tomb.specs.Bounds.{HasWholeBounds};
ghost use Rattle.rk_tomb.specs.Weights.{record_of, newest};
ghost use Rattle.rk_tomb.specs.Spans.{tomb_at, IsInRange, IsWithin};
ghost use Rattle.rk_tomb.specs.Index.{places, tombs_of, run_len, IsPlaced, IsRun, AreRuns, IsIndex};

use crate::Tomb;
use crate::edge::{Edge, cmp_edges};
use crate::lookup::Lookup;
use crate::span::Span;
use rk_bytes::Memory;
use rk_ikey::TOP;
use std::alloc::Global;
use std::cmp::Ordering;

/// What an index keeps of a range deletion.
#[derive(Clone, Copy, Debug)]
pub struct Node {
    /// Its place in the list.
    pub place: usize,
    /// The span of the part of its run of which this node is the middle.
    pub span: Span,
}

/// Adds a node for the last range deletion. Where memory runs out, it changes nothing.
pub fn index_last(alloc: Global, tombs: &[Tomb], nodes: &mut Vec<Node>) -> Result<(), Memory>
    requires some { 0 < length tombs.now }
    requires index { IsIndex (take (length tombs.now - 1) tombs.now) nodes.old.items }
    ensures ok { OnOk result (IsIndex tombs.now nodes.new.items) }
    ensures err { OnErr result (nodes.new.items ≡ nodes.old.items) }
{
    let place = tombs.len() - 1;
    let span = Span::of(tombs, place);
    nodes.push(Node { place, span })?;
    match settle(alloc, tombs, nodes.as_mut_slice()) {
        Ok(()) => Ok(()),
        Err(memory) => {
            nodes.pop();
            Err(memory)
        }
    }
}

/// Makes one run of the last node and of those runs before it that together are as long. Where memory runs
/// out, it changes nothing.
fn settle(alloc: Global, tombs: &[Tomb], nodes: &mut [Node]) -> Result<(), Memory>
    requires some { 0 < length nodes.old }
    requires placed { All (IsPlaced (length tombs.now)) nodes.old }
    requires runs { AreRuns tombs.now (take (length nodes.old - 1) nodes.old) }
    ensures placed { All (IsPlaced (length tombs.now)) nodes.new }
    ensures same { IsPermutation (places nodes.old) (places nodes.new) }
    ensures ok { OnOk result (AreRuns tombs.now nodes.new) }
    ensures err { OnErr result (nodes.new ≡ nodes.old) }
{
    let first = run_len(nodes.len());
    if first < nodes.len() {
        return settle(alloc, tombs, &mut nodes[first..]);
    }
    nodes.sort_by(alloc, |a, b| cmp_starts(tombs, a.place, b.place))?;
    summarize(tombs, nodes);
    Ok(())
}

/// How long the first run of so many nodes is: the greatest power of two that is at most their number.
fn run_len(count: usize) -> usize
    requires { 0 < count }
    ensures { result ≡ run_len count }
{
    1 << count.ilog2()
}

/// How the range deletions in two places of the list start.
fn cmp_starts(tombs: &[Tomb], a: usize, b: usize) -> Ordering {
    match (tombs.get(a), tombs.get(b)) {
        (Some(a), Some(b)) => cmp_edges(Edge::start(a), Edge::start(b)),
        _ => a.cmp(&b),
    }
}

/// Writes down in each node of a run the span of its part, and gives that of the whole run, if it has a node.
fn summarize(tombs: &[Tomb], run: &mut [Node]) -> Option<Span>
    requires { All (IsPlaced (length tombs.now)) run.old }
    ensures placed { All (IsPlaced (length tombs.now)) run.new }
    ensures same { places run.new ≡ places run.old }
    ensures run { IsRun tombs.now run.new }
    ensures none { IfNone result (run.new ≡ []) }
    ensures range { IfSome result (IsInRange (length tombs.now)) }
    ensures within { IfSome result (λ span. All (λ node. IsWithin tombs.now span (tomb_at tombs.now node.place)) run.new) }
{
    if run.is_empty() {
        return None;
    }
    let middle = run.len() / 2;
    let place = run[middle].place;
    let before = summarize(tombs, &mut run[..middle]);
    let after = summarize(tombs, &mut run[middle + 1..]);
    let own = Span::of(tombs, place);
    let span = joined_with(tombs, joined_with(tombs, own, before), after);
    run[middle] = Node { place, span };
    Some(span)
}

/// The newest sequence number of a range deletion of the run that covers the record, or the number that is
/// given, if that is greater.
fn newest_in(tombs: &[Tomb], run: &[Node], lookup: &Lookup<'_>, floor: u64) -> u64
    requires sequence { lookup.now.sequence ≤ TOP }
    requires bounds { All (λ tomb. HasWholeBounds tomb.cut) tombs.now }
    requires placed { All (IsPlaced (length tombs.now)) run.now }
    requires run { IsRun tombs.now run.now }
    ensures { result ≡ newest (record_of lookup.now) floor (tombs_of tombs.now run.now) }
{
    if run.is_empty() {
        return floor;
    }
    let middle = run.len() / 2;
    let node = run[middle];
    if lookup.is_missed_by(tombs, &node.span, floor) {
        return floor;
    }
    let before = newest_in(tombs, &run[..middle], lookup, floor);
    let own = lookup.newest_of(&tombs[node.place], before);
    newest_in(tombs, &run[middle + 1..], lookup, own)
}

/// The same of all nodes, run by run.
pub fn newest_in_runs(tombs: &[Tomb], nodes: &[Node], lookup: &Lookup<'_>, floor: u64) -> u64
    requires sequence { lookup.now.sequence ≤ TOP }
    requires bounds { All (λ tomb. HasWholeBounds tomb.cut) tombs.now }
    requires placed { All (IsPlaced (length tombs.now)) nodes.now }
    requires runs { AreRuns tombs.now nodes.now }
    ensures { result ≡ newest (record_of lookup.now) floor (tombs_of tombs.now nodes.now) }
{
    let mut newest = floor;
    let mut rest = nodes;
    while !rest.is_empty() {
        let (run, others) = rest.split_at(run_len(rest.len()));
        newest = newest_in(tombs, run, lookup, newest);
        rest = others;
    }
    newest
}

/// The span of what is within a span or within another, if there is another.
fn joined_with(tombs: &[Tomb], span: Span, other: Option<Span>) -> Span
    requires range { IsInRange (length tombs.now) span }
    requires other_range { IfSome other (IsInRange (length tombs.now)) }
    ensures range { IsInRange (length tombs.now) result }
    ensures within { (tomb : Tomb) → IsWithin tombs.now span tomb → IsWithin tombs.now result tomb }
    ensures other_within { (tomb : Tomb) → IfSome other (λ span. IsWithin tombs.now span tomb → IsWithin tombs.now result tomb) }
{
    match other {
        None => span,
        Some(other) => span.joined(tombs, &other),
    }
}

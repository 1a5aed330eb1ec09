//! How points go down to the best ones: to where each family is whole, and then until no group is broken.
ghost use Rattle.std.specs.Prelude.{◌≡◌, ◌<◌, ◌≤◌, ℕ, List, Bool, true, false, length, map, IfOk};
ghost use Rattle.std.specs.List.{AllByRecursion, list_any, sum_by};
ghost use Rattle.std.specs.List.Sorted.{IsPartitionPoint};
ghost use Rattle.rk_bytes.specs.Model.BestEfforts.{group_places, answers_pass, best_points};
ghost use Rattle.rk_bytes.specs.Model.Manifest.{ManifestUnit};
ghost use Rattle.rk_points.specs.Courses.{is_live_in, Follows};
ghost use Rattle.rk_points.specs.Descents.{Rises, IsSound, AreSound, last_whole, turns_of, is_before, held_at, held_each, held, passed, passed_times, points_of};

use crate::Point;
use crate::course::{Course, Turn};
use rk_bytes::{Memory, Seq};
use rk_laws::one_best_vector;
use std::alloc::Global;

/// A family on its way down.
#[derive(Clone, Copy)]
struct Stand<'a> {
    course: &'a Course,
    /// How many units count for it.
    at: u64,
}

/// The best points of families, in the order of their courses, over a manifest of so many units, of which the
/// groups have these places, counted from 1 and in rising order.
///
/// A pass takes time for each group and each family that stands before it. Where a family that isn't live counts as
/// whole, as in every course that follows units, the first pass lowers all that has to be, and the second one nothing.
pub(crate) fn descend(
    alloc: Global,
    courses: &[Course],
    groups: &[u64],
    count: u64,
) -> Result<Seq<Point>, Memory>
    ensures { (units : List ManifestUnit) (answers : List Bool) → Follows units answers courses.now → groups.now ≡ group_places 1 units → count ≡ length units → IfOk result (λ points. points ≡ best_points units (answers_pass answers units)) }
{
    one_best_vector();
    let mut stands = whole_stands(alloc, courses, count)?;
    settle(&mut stands, groups);
    points_of(alloc, &stands)
}

/// Each family at its last whole point up to this one.
fn whole_stands<'a>(
    alloc: Global,
    courses: &'a [Course],
    count: u64,
) -> Result<Vec<Stand<'a>>, Memory>
    ensures courses { IfOk result (λ stands. map (λ stand. stand.course.now) stands.items ≡ courses.now) }
    ensures whole { IfOk result (λ stands. AllByRecursion (λ stand. IsSound (turns_of stand) → stand.at ≡ last_whole (turns_of stand) count) stands.items) }
{
    let mut stands = Vec::new(alloc);
    for course in courses {
        let at = last_whole(course.turns.as_slice(), count);
        stands.push(Stand { course, at })?;
    }
    Ok(stands)
}

/// The points of families.
fn points_of(alloc: Global, stands: &[Stand<'_>]) -> Result<Seq<Point>, Memory>
    ensures { IfOk result (λ points. points ≡ points_of stands.now) }
{
    let mut points = Seq::new(alloc);
    for stand in stands {
        points.push(Point {
            family: stand.course.family,
            at: stand.at,
        })?;
    }
    Ok(points)
}

/// Lowers families until no group is applied to one that it ties and not to another.
fn settle(stands: &mut [Stand<'_>], groups: &[u64])
    ensures passed { AreSound stands.old → (n : ℕ) × (stands.new ≡ passed_times n groups.now stands.old) }
    ensures settled { AreSound stands.old → passed groups.now stands.new ≡ stands.new }
{
    while pass(stands, groups) {}
}

/// Holds families at each group, from the last to the first, and whether one was lowered.
fn pass(stands: &mut [Stand<'_>], groups: &[u64]) -> bool
    ensures passed { AreSound stands.old → stands.new ≡ passed groups.now stands.old }
    ensures lower { result ≡ true → sum_by (λ stand. stand.at) stands.new < sum_by (λ stand. stand.at) stands.old }
    ensures same { result ≡ false → stands.new ≡ stands.old }
{
    let mut lowered = false;
    for place in groups.iter().rev() {
        if hold(stands, *place) {
            lowered = true;
        }
    }
    lowered
}

/// Lowers the families that a group ties, if one that it ties stands before it, and whether one was lowered.
fn hold(stands: &mut [Stand<'_>], place: u64) -> bool
    ensures held { AreSound stands.old → stands.new ≡ held place stands.old }
    ensures lower { result ≡ true → sum_by (λ stand. stand.at) stands.new < sum_by (λ stand. stand.at) stands.old }
    ensures same { result ≡ false → stands.new ≡ stands.old }
{
    has_before(stands, place) && lower_behind(stands, place)
}

/// Whether a family that a group ties stands before it.
fn has_before(stands: &[Stand<'_>], place: u64) -> bool
    ensures found { AreSound stands.now → result ≡ list_any (is_before place) stands.now }
    ensures positive { result ≡ true → 0 < place }
{
    for stand in stands {
        if stand.at < place && is_live(stand.course.turns.as_slice(), place - 1) {
            return true;
        }
    }
    false
}

/// Lowers the families that a group ties and that stand at it or later, and whether there was one.
fn lower_behind(stands: &mut [Stand<'_>], place: u64) -> bool
    requires { 0 < place }
    ensures held { AreSound stands.old → stands.new ≡ held_each place stands.old }
    ensures lower { result ≡ true → sum_by (λ stand. stand.at) stands.new < sum_by (λ stand. stand.at) stands.old }
    ensures same { result ≡ false → stands.new ≡ stands.old }
{
    let mut lowered = false;
    for stand in stands.iter_mut() {
        let at = held_at(stand, place);
        if at < stand.at {
            stand.at = at;
            lowered = true;
        }
    }
    lowered
}

/// Where the family stands once it isn't behind a group that ties it.
fn held_at(stand: &Stand<'_>, place: u64) -> u64
    requires { 0 < place }
    ensures { IsSound (turns_of stand.now) → result ≡ held_at place stand.now }
{
    let turns = stand.course.turns.as_slice();
    if place <= stand.at && is_live(turns, place - 1) {
        last_whole(turns, place - 1)
    } else {
        stand.at
    }
}

/// The greatest point up to this one at which all files are whole.
fn last_whole(turns: &[Turn], point: u64) -> u64
    ensures { IsSound turns.now → result ≡ last_whole turns.now point }
{
    let mut at = point;
    let mut left = turns_until(turns, point);
    while left > 0 && !turns[left - 1].whole {
        left -= 1;
        at = turns[left].at.saturating_sub(1);
    }
    at
}

/// Whether the family is live after so many units.
fn is_live(turns: &[Turn], point: u64) -> bool
    ensures { Rises turns.now → result ≡ is_live_in turns.now point }
{
    let left = turns_until(turns, point);
    left > 0 && turns[left - 1].live
}

/// How many turns are at so many units or fewer.
fn turns_until(turns: &[Turn], point: u64) -> usize
    ensures bound { result ≤ length turns.now }
    ensures parts { Rises turns.now → IsPartitionPoint (λ turn. turn.at ≤ point) (λ turn. point < turn.at) turns.now result }
{
    turns.partition_point(|turn| turn.at <= point)
}

#[cfg(test)]
mod tests;

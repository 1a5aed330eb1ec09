//! Sources of records in the order of their slots, and what several of them have in that order.
ghost use Rattle.std.specs.Prelude.{◌≡◌, [], List, map, filter, drop, slice_get, OnOk, OnErr, MatchOption, IsTrue, IsSome, if◌then◌else◌};
ghost use Rattle.std.specs.Option.{option_copied};
ghost use Rattle.rk_bytes.specs.declared.model.key.Record.{Record};
ghost use Rattle.rk_view.specs.Places.{is_after};
ghost use Rattle.rk_view.specs.Maps.{IsRun, first_of};
ghost use Rattle.rk_view.specs.Sources.{merged, AreRuns, IsLeast, IsBehind};

use crate::place::{Place, cmp_slots};
use rk_ikey::Record;

/// Records in the order of their slots, of which the first is lent.
pub trait Source {
    /// Why a source can't go on.
    type Error;

    /// The records that are left.
    ghost left: { Self → List Record };

    /// The first of the records that are left, if there is one.
    fn head(&self) -> Option<&Record>
        ensures { option_copied result ≡ slice_get (left self.now) 0 };

    /// Goes past the first record. After an error it is still the first.
    fn advance(&mut self) -> Result<(), Self::Error>
        ensures ok { OnOk result (left self.new ≡ drop 1 (left self.old)) }
        ensures err { OnErr result (left self.new ≡ left self.old) };
}

/// Goes past the records that don't come after a place. After an error some of them are still there.
pub fn skip<S: Source>(sources: &mut [S], place: &Place<'_>) -> Result<(), S::Error>
    requires { AreRuns (map S.left sources.old) }
    ensures runs { AreRuns (map S.left sources.new) }
    ensures same { map (filter (is_after place.now.family place.now.user.now place.now.below)) (map S.left sources.new) ≡ map (filter (is_after place.now.family place.now.user.now place.now.below)) (map S.left sources.old) }
    ensures ok { OnOk result (map S.left sources.new ≡ map (filter (is_after place.now.family place.now.user.now place.now.below)) (map S.left sources.old)) }
{
    for source in sources.iter_mut() {
        skip_one(source, place)?;
    }
    Ok(())
}

/// Goes past the records of one source that don't come after a place. After an error some of them are still there.
fn skip_one<S: Source>(source: &mut S, place: &Place<'_>) -> Result<(), S::Error>
    requires { IsRun (S.left source.old) }
    ensures run { IsRun (S.left source.new) }
    ensures same { filter (is_after place.now.family place.now.user.now place.now.below) (S.left source.new) ≡ filter (is_after place.now.family place.now.user.now place.now.below) (S.left source.old) }
    ensures ok { OnOk result (S.left source.new ≡ filter (is_after place.now.family place.now.user.now place.now.below) (S.left source.old)) }
{
    while is_behind(source, place) {
        source.advance()?;
    }
    Ok(())
}

/// Whether a source has a first record that doesn't come after the place.
fn is_behind<S: Source>(source: &S, place: &Place<'_>) -> bool
    ensures { IsBehind (is_after place.now.family place.now.user.now place.now.below) result (S.left source.now) }
{
    match source.head() {
        Some(first) => !place.is_before(first),
        None => false,
    }
}

/// Which source has the first of all records that are left, if any has one: of one slot the last source.
pub fn least<S: Source>(sources: &[S]) -> Option<usize>
    requires { AreRuns (map S.left sources.now) }
    ensures { MatchOption result (merged (map S.left sources.now) ≡ []) (λ i. IsLeast (map S.left sources.now) i) }
{
    let mut least = None;
    let mut first = None;
    for (index, source) in sources.iter().enumerate() {
        let next = source.head();
        if comes_first(first, next) {
            least = Some(index);
            first = next;
        }
    }
    least
}

/// Whether there is a later record, and an earlier one, if there is one, has no lesser slot.
fn comes_first(earlier: Option<&Record>, later: Option<&Record>) -> bool
    ensures first { first_of (option_copied earlier.entry) (option_copied later.entry) ≡ (if result then option_copied later.entry else option_copied earlier.entry) }
    ensures some { IsTrue result → IsSome (option_copied later.entry) }
{
    match (earlier, later) {
        (Some(record), Some(other)) => !cmp_slots(other, record).is_gt(),
        (None, Some(_)) => true,
        (_, None) => false,
    }
}

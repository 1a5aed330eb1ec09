//! What comes next of a key, in several sources.
ghost use Rattle.std.specs.Prelude.{◌≡◌, [], ◌≤◌, ◌==◌, ◌&&◌, not, bytes_eq, List, map, filter, OnOk, MatchOption, IfOk};
ghost use Rattle.rk_bytes.specs.declared.model.view.Tomb.{Tomb};
ghost use Rattle.rk_bytes.specs.Model.KeyView.{is_point, is_covered};
ghost use Rattle.rk_view.specs.Places.{is_after};
ghost use Rattle.rk_view.specs.Maps.{AreNumbered};
ghost use Rattle.rk_view.specs.Sources.{merged, AreRuns, StandsElsewhere, IsLeastAt};
ghost use Rattle.rk_view.specs.Shown.{shown_below, StandsAtShown, StandsAtNext, IsHidden};

use crate::place::{Place, number};
use crate::source::{Source, least, skip};
use rk_ikey::{Kind, Record, TOP};
use rk_tomb::TombSet;

/// Goes on to the next record of a key that no range deletion covers, of those with a number below a limit, and
/// says which source stands at it. After an error some of the key's records may be gone.
pub fn next_shown<S: Source>(
    sources: &mut [S],
    tombs: &TombSet,
    family: u32,
    key: &[u8],
    below: u128,
) -> Result<Option<usize>, S::Error>
    requires { AreRuns (map S.left sources.old) }
    ensures runs { AreRuns (map S.left sources.new) }
    ensures next { IfOk result (λ found. MatchOption found (shown_below tombs.now family key.now below (merged (map S.left sources.old)) ≡ [])
        (λ i. StandsAtShown tombs.now family key.now below (map S.left sources.old) (map S.left sources.new) i)) }
{
    let mut limit = below;
    while let Some(index) = next_at(sources, family, key, limit)? {
        match hidden_number(&sources[index], tombs) {
            Some(hidden) => limit = hidden,
            None => return Ok(Some(index)),
        }
    }
    Ok(None)
}

/// Goes on to what comes after a place in a key, and says which source has the first record then, if that is one
/// of the key.
fn next_at<S: Source>(
    sources: &mut [S],
    family: u32,
    key: &[u8],
    below: u128,
) -> Result<Option<usize>, S::Error>
    requires { AreRuns (map S.left sources.old) }
    ensures runs { AreRuns (map S.left sources.new) }
    ensures ok { OnOk result (map S.left sources.new ≡ map (filter (is_after family key.now below)) (map S.left sources.old)) }
    ensures next { IfOk result (λ found. MatchOption found ((tombs : List Tomb) → shown_below tombs family key.now below (merged (map S.left sources.old)) ≡ [])
        (λ i. StandsAtNext family key.now below (merged (map S.left sources.old)) (map S.left sources.new) i)) }
{
    let place = Place {
        family,
        user: key,
        below,
    };
    skip(sources, &place)?;
    Ok(least_at(sources, family, key))
}

/// Which source has the first of all records, if that is one of a key.
fn least_at<S: Source>(sources: &[S], family: u32, key: &[u8]) -> Option<usize>
    requires { AreRuns (map S.left sources.now) }
    ensures { MatchOption result (StandsElsewhere family key.now (merged (map S.left sources.now))) (λ i. IsLeastAt family key.now (map S.left sources.now) i) }
{
    match least(sources) {
        None => None,
        Some(index) => match sources[index].head() {
            Some(first) => {
                if is_at(first, family, key) {
                    Some(index)
                } else {
                    None
                }
            }
            None => None,
        },
    }
}

/// The number of a source's first record, if there is one and it shows nothing.
fn hidden_number<S: Source>(source: &S, tombs: &TombSet) -> Option<u128>
    requires { AreNumbered (S.left source.now) }
    ensures { IsHidden tombs.now (S.left source.now) result }
{
    match source.head() {
        None => None,
        Some(first) => {
            if is_shown(tombs, first) {
                None
            } else {
                Some(number(first))
            }
        }
    }
}

/// Whether the record is of the family and at the key.
pub fn is_at(next: &Record, family: u32, key: &[u8]) -> bool
    ensures { result ≡ (next.now.family == family && bytes_eq next.now.key key.now) }
{
    next.family == family && next.key.as_slice() == key
}

/// Whether a record is of a single key, and no range deletion covers it.
pub fn is_shown(tombs: &TombSet, next: &Record) -> bool
    requires { next.now.sequence ≤ TOP }
    ensures { result ≡ (is_point next.now.kind && not (is_covered tombs.now next.now)) }
{
    match next.kind {
        Kind::RangeDeletion => false,
        _ => tombs
            .covering(next.family, next.key.as_slice(), next.sequence, next.kind)
            .is_none(),
    }
}

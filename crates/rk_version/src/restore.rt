//! A family as it was before an edit, among the others.
ghost use Rattle.std.specs.Prelude.{◌≡◌, map, if◌then◌else◌, IfOk};
ghost use Rattle.std.specs.List.{AllByRecursion};
ghost use Rattle.rk_bytes.specs.Model.Manifest.{has_id};
ghost use Rattle.rk_version.specs.Bounds.{HasFilesInOrder};
ghost use Rattle.rk_version.specs.Places.{Rises};
ghost use Rattle.rk_version.specs.Rankings.{rankings_of};
ghost use Rattle.rk_version.specs.Undone.{family_before};

use crate::FamilyState;
use crate::kept::KeptFiles;
use crate::place::place_of_family;
use crate::ranked::RankedFamily;
use crate::ranking::Ranking;
use rk_bytes::{Bytes, Memory, Seq};
use std::alloc::Global;
use std::mem;

/// The families, with the one that has this id as it was before an edit of which this is kept, and what is kept of
/// them all.
pub(crate) fn with_family_before(
    alloc: Global,
    families: Seq<FamilyState>,
    rankings: Seq<Ranking>,
    id: u32,
    kept: &KeptFiles,
) -> Result<(Seq<FamilyState>, Seq<Ranking>), Memory>
    requires ids { Rises (λ live. live.id) families }
    requires files { AllByRecursion HasFilesInOrder families }
    requires kept { rankings ≡ rankings_of families }
    ensures families { IfOk result (λ done. done.0 ≡ map (λ live. if has_id id live then family_before kept.now live else live) families) }
    ensures rankings { IfOk result (λ done. done.1 ≡ rankings_of (map (λ live. if has_id id live then family_before kept.now live else live) families)) }
{
    let mut families = families.into_vec();
    let mut rankings = rankings.into_vec();
    if let Ok(place) = place_of_family(&families, id) {
        let live = mem::replace(&mut families[place], empty_family(alloc, id));
        let ranking = mem::replace(&mut rankings[place], Ranking::new(alloc));
        let ranked = RankedFamily::new(live, ranking);
        let (live, ranking) = family_before(alloc, ranked, kept)?.into_parts();
        families[place] = live;
        rankings[place] = ranking;
    }
    Ok((Seq::from_vec(families), Seq::from_vec(rankings)))
}

/// The family as it was before an edit of which this is kept.
fn family_before(
    alloc: Global,
    family: RankedFamily,
    kept: &KeptFiles,
) -> Result<RankedFamily, Memory>
    ensures { IfOk result (λ before. before ≡ family_before kept.now family) }
{
    family
        .with_log(kept.log)
        .without_files(alloc, kept.numbers.as_slice())
        .with_files(alloc, kept.files.as_slice())
}

/// A family that stands in for another one. Takes no memory.
fn empty_family(alloc: Global, id: u32) -> FamilyState {
    FamilyState {
        id,
        name: Bytes::new(alloc),
        log: 0,
        files: Seq::new(alloc),
    }
}

//! What is kept of the live families of a version, one by one.
ghost use Rattle.std.specs.Prelude.{◌≡◌, ◌==◌, ◌&&◌, false, not, filter, map, if◌then◌else◌, List, ℕ, IfOk};
ghost use Rattle.std.specs.List.{AllByRecursion, list_any, list_all};
ghost use Rattle.rk_bytes.specs.Model.Manifest.{has_id, has_number, add_family, drop_family, add_meta};
ghost use Rattle.rk_version.specs.Bounds.{HasWholeBounds, HasFilesInOrder};
ghost use Rattle.rk_version.specs.Keyed.{put};
ghost use Rattle.rk_version.specs.Places.{Rises};
ghost use Rattle.rk_version.specs.Rankings.{ranking_of, rankings_of};

use crate::place::place_of_family;
use crate::ranking::Ranking;
use crate::{FamilyState, FileMeta};
use rk_bytes::{Memory, Seq};
use std::alloc::Global;
use std::mem;

/// A copy of the rankings.
pub(crate) fn copy_rankings(alloc: Global, rankings: &[Ranking]) -> Result<Seq<Ranking>, Memory>
    ensures { IfOk result (λ copy. copy ≡ rankings.now) }
{
    let mut copies = Seq::new(alloc);
    for ranking in rankings {
        copies.push(ranking.copy(alloc)?)?;
    }
    Ok(copies)
}

/// Whether in none of them a file overlaps the next one.
pub(crate) fn are_apart(rankings: &[Ranking]) -> bool
    ensures { result ≡ list_all (λ ranking. ranking.clashes == 0) rankings.now }
{
    rankings.iter().all(|ranking| ranking.is_apart())
}

/// The rankings with the one of a new family, whose id none of the families has, and which has no files.
pub(crate) fn with_family(
    alloc: Global,
    rankings: Seq<Ranking>,
    families: &[FamilyState],
    id: u32,
) -> Result<Seq<Ranking>, Memory>
    requires ids { Rises (λ live. live.id) families.now }
    requires kept { rankings ≡ rankings_of families.now }
    requires free { list_any (has_id id) families.now ≡ false }
    ensures { IfOk result (λ more. (name : List ℕ) → more ≡ rankings_of (add_family id name families.now)) }
{
    let mut rankings = rankings.into_vec();
    match place_of_family(families, id) {
        Ok(_) => unreachable!(),
        Err(place) => rankings.insert(place, Ranking::new(alloc))?,
    }
    Ok(Seq::from_vec(rankings))
}

/// The rankings without the one of the family that has this id, if one has it. Takes no memory.
pub(crate) fn without_family(
    rankings: Seq<Ranking>,
    families: &[FamilyState],
    id: u32,
) -> Seq<Ranking>
    requires ids { Rises (λ live. live.id) families.now }
    requires kept { rankings ≡ rankings_of families.now }
    ensures { result ≡ rankings_of (drop_family id families.now) }
{
    let mut rankings = rankings.into_vec();
    if let Ok(place) = place_of_family(families, id) {
        rankings.remove(place);
    }
    Seq::from_vec(rankings)
}

/// The rankings with one more file in the family that has this id, whose number none of its files has.
pub(crate) fn with_file(
    alloc: Global,
    rankings: Seq<Ranking>,
    families: &[FamilyState],
    id: u32,
    file: &FileMeta,
) -> Result<Seq<Ranking>, Memory>
    requires ids { Rises (λ live. live.id) families.now }
    requires files { AllByRecursion HasFilesInOrder families.now }
    requires kept { rankings ≡ rankings_of families.now }
    requires bounds { HasWholeBounds file.now }
    requires free { list_any (λ live. list_any (has_number file.now.number) live.files) families.now ≡ false }
    ensures { IfOk result (λ more. more ≡ rankings_of (map (λ live. if has_id id live then record live { files = add_meta file.now live.files } else live) families.now)) }
{
    let mut rankings = rankings.into_vec();
    if let Ok(place) = place_of_family(families, id) {
        let kept = &mut rankings[place];
        let ranking = mem::replace(kept, Ranking::new(alloc));
        *kept = ranking.with_file(&families[place], file)?;
    }
    Ok(Seq::from_vec(rankings))
}

/// The rankings without the file that has this number in the family that has this id. Takes no memory.
pub(crate) fn without_file(
    alloc: Global,
    rankings: Seq<Ranking>,
    families: &[FamilyState],
    id: u32,
    number: u64,
) -> Seq<Ranking>
    requires ids { Rises (λ live. live.id) families.now }
    requires files { AllByRecursion HasFilesInOrder families.now }
    requires kept { rankings ≡ rankings_of families.now }
    ensures { result ≡ rankings_of (map (λ live. if has_id id live then record live { files = filter (λ file. not (has_number number file)) live.files } else live) families.now) }
{
    let mut rankings = rankings.into_vec();
    if let Ok(place) = place_of_family(families, id) {
        let kept = &mut rankings[place];
        let ranking = mem::replace(kept, Ranking::new(alloc));
        *kept = ranking.without_file(&families[place], number);
    }
    Seq::from_vec(rankings)
}

/// The rankings with the one of this family, which takes the place of one that has its id.
pub(crate) fn with_live(
    rankings: Seq<Ranking>,
    families: &[FamilyState],
    live: &FamilyState,
    ranking: Ranking,
) -> Result<Seq<Ranking>, Memory>
    requires ids { Rises (λ live. live.id) families.now }
    requires kept { rankings ≡ rankings_of families.now }
    requires own { ranking ≡ ranking_of live.now.files }
    ensures { IfOk result (λ more. more ≡ rankings_of (put (λ live. live.id) live.now families.now)) }
{
    let mut rankings = rankings.into_vec();
    match place_of_family(families, live.id) {
        Ok(place) => rankings[place] = ranking,
        Err(place) => rankings.insert(place, ranking)?,
    }
    Ok(Seq::from_vec(rankings))
}

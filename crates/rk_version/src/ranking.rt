//! What is kept of a family's files, so that a change of one of them looks at its neighbours alone.
ghost use Rattle.std.specs.Prelude.{◌≡◌, ◌<◌, ◌==◌, [], false, not, filter, insert, remove, length, slice_index_or, IfOk};
ghost use Rattle.std.specs.List.{AllByRecursion, list_any};
ghost use Rattle.std.specs.Option.{option_copied, ForSome};
ghost use Rattle.rk_bytes.specs.Model.Manifest.{has_number, add_meta};
ghost use Rattle.rk_version.specs.Bounds.{HasWholeBounds, HasFilesInOrder};
ghost use Rattle.rk_version.specs.Places.{Rises};
ghost use Rattle.rk_version.specs.Rankings.{ranked, ranked_numbers, clash_count, IsRank, meeting, ranking_of};

use crate::place::place_of_file;
use crate::rank::{file_in_front, rank_of, ranked_file};
use crate::spot::Spot;
use crate::{FamilyState, FileMeta};
use rk_bytes::{Memory, Seq};
use std::alloc::Global;

/// The order of a family's files, by level, least key and number.
#[derive(Debug, Drop)]
pub(crate) struct Ranking {
    /// The numbers of the files.
    numbers: Seq<u64>,
    /// How many files overlap the next one, at a level above 0.
    clashes: usize,
}

impl Ranking {
    /// Of no files.
    pub(crate) fn new(alloc: Global) -> Ranking
        ensures { result ≡ ranking_of [] }
    {
        Ranking {
            numbers: Seq::new(alloc),
            clashes: 0,
        }
    }

    /// A copy of it.
    pub(crate) fn copy(&self, alloc: Global) -> Result<Ranking, Memory>
        ensures { IfOk result (λ copy. copy ≡ self.now) }
    {
        Ok(Ranking {
            numbers: Seq::from_vec(Vec::from_slice(alloc, self.numbers.as_slice())?),
            clashes: self.clashes,
        })
    }

    /// Whether no file overlaps the next one.
    pub(crate) fn is_apart(&self) -> bool
        ensures { result ≡ self.now.clashes == 0 }
    {
        self.clashes == 0
    }

    /// With one more file, whose number none of the family's files has.
    pub(crate) fn with_file(self, live: &FamilyState, file: &FileMeta) -> Result<Ranking, Memory>
        requires order { HasFilesInOrder live.now }
        requires bounds { HasWholeBounds file.now }
        requires free { list_any (has_number file.now.number) live.now.files ≡ false }
        requires kept { self ≡ ranking_of live.now.files }
        ensures { IfOk result (λ more. more ≡ ranking_of (add_meta file.now live.now.files)) }
    {
        let files = live.files.as_slice();
        let Ranking { numbers, clashes } = self;
        let mut numbers = numbers.into_vec();
        let place = rank_of(files, &numbers, file);
        let clashes = clashes_with(files, &numbers, clashes, place, file);
        numbers.insert(place, file.number)?;
        Ok(Ranking {
            numbers: Seq::from_vec(numbers),
            clashes,
        })
    }

    /// Without the file that has this number, if one of the family's files has it. Takes no memory.
    pub(crate) fn without_file(self, live: &FamilyState, number: u64) -> Ranking
        requires order { HasFilesInOrder live.now }
        requires kept { self ≡ ranking_of live.now.files }
        ensures { result ≡ ranking_of (filter (λ file. not (has_number number file)) live.now.files) }
    {
        let files = live.files.as_slice();
        match place_of_file(files, number) {
            Ok(at) => self.without(files, at),
            Err(_) => self,
        }
    }

    /// Without one of the files.
    fn without(self, files: &[FileMeta], at: usize) -> Ranking
        requires rise { Rises (λ file. file.number) files.now }
        requires bounds { AllByRecursion HasWholeBounds files.now }
        requires kept { self ≡ ranking_of files.now }
        requires within { at < length files.now }
        ensures { result ≡ ranking_of (remove files.now at) }
    {
        let file = &files[at];
        let Ranking { numbers, clashes } = self;
        let mut numbers = numbers.into_vec();
        let place = rank_of(files, &numbers, file);
        let clashes = clashes_without(files, &numbers, clashes, place, file);
        numbers.remove(place);
        Ranking {
            numbers: Seq::from_vec(numbers),
            clashes,
        }
    }
}

/// How many files overlap the next one, with one more file in this place.
fn clashes_with(
    files: &[FileMeta],
    numbers: &[u64],
    clashes: usize,
    place: usize,
    file: &FileMeta,
) -> usize
    requires rise { Rises (λ file. file.number) files.now }
    requires bounds { AllByRecursion HasWholeBounds files.now }
    requires ranked { numbers.now ≡ ranked_numbers files.now }
    requires counted { clashes ≡ clash_count (ranked files.now) }
    requires own { HasWholeBounds file.now }
    requires place { IsRank file.now (ranked files.now) place }
    ensures { result ≡ clash_count (insert (ranked files.now) place file.now) }
{
    let front = file_in_front(files, numbers, place);
    let behind = ranked_file(files, numbers, place);
    clashes - meeting(front, behind) + meeting(front, Some(file)) + meeting(Some(file), behind)
}

/// How many files overlap the next one, without the file that stands in this place.
fn clashes_without(
    files: &[FileMeta],
    numbers: &[u64],
    clashes: usize,
    place: usize,
    file: &FileMeta,
) -> usize
    requires rise { Rises (λ file. file.number) files.now }
    requires bounds { AllByRecursion HasWholeBounds files.now }
    requires ranked { numbers.now ≡ ranked_numbers files.now }
    requires counted { clashes ≡ clash_count (ranked files.now) }
    requires own { HasWholeBounds file.now }
    requires within { place < length numbers.now }
    requires there { file.now ≡ slice_index_or (ranked files.now) place file.now }
    ensures { result ≡ clash_count (remove (ranked files.now) place) }
{
    let front = file_in_front(files, numbers, place);
    let behind = ranked_file(files, numbers, place + 1);
    clashes - meeting(front, Some(file)) - meeting(Some(file), behind) + meeting(front, behind)
}

/// One, if both files are there and the first, which comes before the second, overlaps it at a level above 0.
fn meeting(first: Option<&FileMeta>, second: Option<&FileMeta>) -> usize
    requires first { ForSome (option_copied first) HasWholeBounds }
    requires second { ForSome (option_copied second) HasWholeBounds }
    ensures { result ≡ meeting (option_copied first.entry) (option_copied second.entry) }
{
    match (first, second) {
        (Some(first), Some(second)) if Spot::of(first).clashes_with(&Spot::of(second)) => 1,
        _ => 0,
    }
}

//! Where files stand, or belong, in the order of their family's files.
ghost use Rattle.std.specs.Prelude.{◌≡◌, ◌<◌, length, slice_index_or, slice_get};
ghost use Rattle.std.specs.List.{AllByRecursion};
ghost use Rattle.std.specs.Option.{option_copied};
ghost use Rattle.std.specs.Ordering.{is_lt};
ghost use Rattle.rk_version.specs.Bounds.{HasWholeBounds};
ghost use Rattle.rk_version.specs.Places.{Rises};
ghost use Rattle.rk_version.specs.Rankings.{ranked, ranked_numbers, file_before, IsRank};
ghost use Rattle.rk_version.specs.Spots.{file_cmp};

use crate::FileMeta;
use crate::place::place_of_file;
use crate::spot::Spot;

/// The file in this place of the order, if one stands there.
pub(crate) fn ranked_file<'a>(
    files: &'a [FileMeta],
    numbers: &[u64],
    place: usize,
) -> Option<&'a FileMeta>
    requires rise { Rises (λ file. file.number) files.now }
    requires ranked { numbers.now ≡ ranked_numbers files.now }
    ensures { option_copied result ≡ slice_get (ranked files.now) place }
{
    if place >= numbers.len() {
        return None;
    }
    match place_of_file(files, numbers[place]) {
        Ok(at) => Some(&files[at]),
        Err(_) => unreachable!(),
    }
}

/// The file in front of this place.
pub(crate) fn file_in_front<'a>(
    files: &'a [FileMeta],
    numbers: &[u64],
    place: usize,
) -> Option<&'a FileMeta>
    requires rise { Rises (λ file. file.number) files.now }
    requires ranked { numbers.now ≡ ranked_numbers files.now }
    ensures { option_copied result ≡ file_before (ranked files.now) place }
{
    if place == 0 {
        None
    } else {
        ranked_file(files, numbers, place - 1)
    }
}

/// Where the file belongs: behind the files that come before it. Takes no memory.
pub(crate) fn rank_of(files: &[FileMeta], numbers: &[u64], file: &FileMeta) -> usize
    requires rise { Rises (λ file. file.number) files.now }
    requires bounds { AllByRecursion HasWholeBounds files.now }
    requires ranked { numbers.now ≡ ranked_numbers files.now }
    requires own { HasWholeBounds file.now }
    ensures { IsRank file.now (ranked files.now) result }
{
    let mut low = 0;
    let mut high = numbers.len();
    while low < high {
        let middle = low + (high - low) / 2;
        if stands_before(files, numbers, middle, file) {
            low = middle + 1;
        } else {
            high = middle;
        }
    }
    low
}

/// Whether the file in this place comes before another one.
fn stands_before(files: &[FileMeta], numbers: &[u64], place: usize, file: &FileMeta) -> bool
    requires rise { Rises (λ file. file.number) files.now }
    requires bounds { AllByRecursion HasWholeBounds files.now }
    requires ranked { numbers.now ≡ ranked_numbers files.now }
    requires own { HasWholeBounds file.now }
    requires within { place < length numbers.now }
    ensures { result ≡ is_lt (file_cmp (slice_index_or (ranked files.now) place file.now) file.now) }
{
    match ranked_file(files, numbers, place) {
        Some(other) => comes_before(other, file),
        None => unreachable!(),
    }
}

/// Whether a file comes before another, by its level, its least key and its number.
fn comes_before(file: &FileMeta, other: &FileMeta) -> bool
    requires own { HasWholeBounds file.now }
    requires other { HasWholeBounds other.now }
    ensures { result ≡ is_lt (file_cmp file.now other.now) }
{
    Spot::of(file).cmp(&Spot::of(other)).is_lt()
}

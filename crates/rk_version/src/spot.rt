//! Where a file stands among the files of its family: by its level, its least key and its number.
ghost use Rattle.std.specs.Prelude.{◌≡◌, map};
ghost use Rattle.std.specs.List.{All};
ghost use Rattle.rk_version.specs.Bounds.{HasWholeBounds};
ghost use Rattle.rk_version.specs.Spots.{spot_cmp, IsSpot, file_at, clash, first_clash};

use crate::FileMeta;
use rk_ikey::{cmp_keys, split_key};
use std::cmp::Ordering;

/// A file's place, with its least key in parts.
#[derive(Clone, Copy)]
pub(crate) struct Spot<'a> {
    level: u32,
    user: &'a [u8],
    packed: u64,
    number: u64,
    file: &'a FileMeta,
}

impl<'a> Spot<'a> {
    /// The file's place.
    pub(crate) fn of(file: &'a FileMeta) -> Spot<'a>
        requires { HasWholeBounds file.now }
        ensures spot { IsSpot result }
        ensures file { file_at result ≡ file.now }
    {
        let (user, packed) = split_key(file.smallest.as_slice());
        Spot {
            level: file.level,
            user,
            packed,
            number: file.number,
            file,
        }
    }

    /// How two places are ordered.
    pub(crate) fn cmp(&self, other: &Spot<'_>) -> Ordering
        ensures { result ≡ spot_cmp self.now other.now }
    {
        let keys = self
            .user
            .cmp(other.user)
            .then(other.packed.cmp(&self.packed));
        self.level
            .cmp(&other.level)
            .then(keys)
            .then(self.number.cmp(&other.number))
    }

    /// Whether the file in this place, which comes before another, overlaps it at a level above 0.
    pub(crate) fn clashes_with(&self, other: &Spot<'_>) -> bool
        requires own { IsSpot self.now }
        requires other { IsSpot other.now }
        ensures { result ≡ clash (file_at self.now) (file_at other.now) }
    {
        self.level > 0
            && self.level == other.level
            && !cmp_keys(self.file.largest.as_slice(), other.file.smallest.as_slice()).is_lt()
    }
}

/// The level of the first of these places whose file overlaps the next one's, at a level above 0.
pub(crate) fn first_clash(spots: &[Spot<'_>]) -> Option<u32>
    requires { All IsSpot spots.now }
    ensures { result ≡ first_clash (map file_at spots.now) }
{
    for (i, spot) in spots.iter().enumerate() {
        if let Some(next) = spots.get(i + 1) {
            if spot.clashes_with(next) {
                return Some(spot.level);
            }
        }
    }
    None
}

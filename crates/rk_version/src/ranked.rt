//! A family with the order of its files, changed apart from its version.
ghost use Rattle.std.specs.Prelude.{◌≡◌, not, filter, IfOk};
ghost use Rattle.std.specs.List.{AllByRecursion};
ghost use Rattle.rk_bytes.specs.Model.Manifest.{has_number, add_meta};
ghost use Rattle.rk_version.specs.Bounds.{HasWholeBounds, HasFilesInOrder};
ghost use Rattle.rk_version.specs.Rankings.{ranking_of};
ghost use Rattle.rk_version.specs.Keyed.{put_all, without_all};

use crate::copy::{copy_family, copy_file};
use crate::ranking::Ranking;
use crate::{FamilyState, FileMeta, files};
use rk_bytes::{Memory, Seq};
use std::alloc::Global;
use std::marker::Model;
use std::mem;

/// A family with the order of its files. Contracts see it as the family.
#[derive(Debug, Drop)]
pub(crate) struct RankedFamily {
    live: FamilyState,
    ranking: Ranking,
}

impl Model for RankedFamily {
    ghost use Rattle.rk_bytes.specs.declared.model.manifest.FamilyState.{FamilyState};

    ghost Value = { FamilyState };

    ghost use Rattle.rk_version.specs.Ranked.{IsRankedFamily};

    ghost view = { λ r. r.live };

    ghost invariant = { λ r. IsRankedFamily r.live r.ranking };
}

impl RankedFamily {
    /// The family, of whose files this is the order.
    pub(crate) fn new(live: FamilyState, ranking: Ranking) -> RankedFamily
        requires order { HasFilesInOrder live }
        requires kept { ranking ≡ ranking_of live.files }
        ensures { result ≡ live }
    {
        RankedFamily { live, ranking }
    }

    /// A copy of the family, of whose files this is the order.
    pub(crate) fn copy_of(
        alloc: Global,
        live: &FamilyState,
        ranking: &Ranking,
    ) -> Result<RankedFamily, Memory>
        requires order { HasFilesInOrder live.now }
        requires kept { ranking.now ≡ ranking_of live.now.files }
        ensures { IfOk result (λ copy. copy ≡ live.now) }
    {
        Ok(RankedFamily {
            live: copy_family(alloc, live)?,
            ranking: ranking.copy(alloc)?,
        })
    }

    /// A copy of it.
    pub(crate) fn copy(&self, alloc: Global) -> Result<RankedFamily, Memory>
        ensures { IfOk result (λ copy. copy ≡ self.now) }
    {
        RankedFamily::copy_of(alloc, &self.live, &self.ranking)
    }

    /// The family and the order of its files.
    pub(crate) fn into_parts(self) -> (FamilyState, Ranking)
        ensures family { result.0 ≡ self }
        ensures order { HasFilesInOrder result.0 }
        ensures kept { result.1 ≡ ranking_of result.0.files }
    {
        let RankedFamily { live, ranking } = self;
        (live, ranking)
    }

    /// With this log number.
    pub(crate) fn with_log(self, log: u64) -> RankedFamily
        ensures { result ≡ record self { log = log } }
    {
        let RankedFamily { mut live, ranking } = self;
        live.log = log;
        RankedFamily { live, ranking }
    }

    /// Without the file that has this number, if one has it. Takes no memory.
    pub(crate) fn without_file(self, alloc: Global, number: u64) -> RankedFamily
        ensures { result ≡ record self { files = filter (λ file. not (has_number number file)) self.files } }
    {
        let RankedFamily { mut live, ranking } = self;
        let ranking = ranking.without_file(&live, number);
        let files = mem::replace(&mut live.files, Seq::new(alloc));
        live.files = files::without_file(files, number);
        RankedFamily { live, ranking }
    }

    /// With the file, which takes the place of one that has its number.
    pub(crate) fn with_file(self, alloc: Global, file: FileMeta) -> Result<RankedFamily, Memory>
        requires { HasWholeBounds file }
        ensures { IfOk result (λ more. more ≡ record self { files = add_meta file self.files }) }
    {
        let RankedFamily { mut live, ranking } = self.without_file(alloc, file.number);
        let ranking = ranking.with_file(&live, &file)?;
        let files = mem::replace(&mut live.files, Seq::new(alloc));
        live.files = files::with_file(files, file)?;
        Ok(RankedFamily { live, ranking })
    }

    /// Without the files that have these numbers. Takes no memory.
    pub(crate) fn without_files(self, alloc: Global, numbers: &[u64]) -> RankedFamily
        ensures { result ≡ record self { files = without_all (λ file. file.number) numbers.now self.files } }
    {
        let mut family = self;
        for number in numbers {
            family = family.without_file(alloc, *number);
        }
        family
    }

    /// With copies of the files.
    pub(crate) fn with_files(
        self,
        alloc: Global,
        files: &[FileMeta],
    ) -> Result<RankedFamily, Memory>
        requires { AllByRecursion HasWholeBounds files.now }
        ensures { IfOk result (λ more. more ≡ record self { files = put_all (λ file. file.number) files.now self.files }) }
    {
        let mut family = self;
        for file in files {
            family = family.with_file(alloc, copy_file(alloc, file)?)?;
        }
        Ok(family)
    }
}

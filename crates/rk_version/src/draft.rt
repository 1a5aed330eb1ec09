ghost use Rattle.std.specs.Prelude.{◌≡◌, ◌==◌, ◌&&◌, ◌||◌, ◌++◌, not, false, filter, find, is_some, nat_lt, Ok, IfOk};
ghost use Rattle.std.specs.List.{list_any};
ghost use Rattle.std.specs.Option.{option_copied, ForSome};
ghost use Rattle.rk_bytes.specs.Model.Manifest.{has_id, has_name, with_family, with_families, add_family, drop_family, has_number, with_files, add_meta, with_numbers, first_version, overlap};
ghost use Rattle.rk_version.specs.Answers.{Gives, Finds};
ghost use Rattle.rk_version.specs.Bounds.{HasWholeBounds, HasFilesInOrder, IsInOrder};
ghost use Rattle.rk_version.specs.Keeping.{least_kept};
ghost use Rattle.rk_version.specs.Keyed.{put, found_all};
ghost use Rattle.rk_version.specs.Stated.{Tells};
ghost use Rattle.rk_version.specs.Undone.{family_before, numbers_before};

use crate::copy::copy_version;
use crate::kept::{KeptEdit, KeptFiles};
use crate::overlap::find_overlap;
use crate::place::place_of_family;
use crate::ranked::RankedFamily;
use crate::ranking::Ranking;
use crate::stated::Stated;
use crate::{
    ApplyFault, FamilyState, FileMeta, Tracked, Version, families, logs, rankings, restore,
};
use rk_bytes::{Bytes, Memory, Seq};
use rk_edit::EditView;
use std::alloc::Global;
use std::marker::Model;
use std::mem;

/// A version to which edits are applied. It is handed on from one change to the next, and is lost where one
/// fails. Contracts see it as the version.
#[derive(Debug, Drop)]
pub(crate) struct Draft {
    alloc: Global,
    version: Version,
    /// What is kept of each family's files, so that a unit's end tests what it changed alone.
    rankings: Seq<Ranking>,
}

impl Model for Draft {
    ghost use Rattle.rk_bytes.specs.declared.model.manifest.Version.{Version};

    ghost Value = { Version };

    ghost use Rattle.rk_version.specs.Rankings.{IsRanked};

    ghost view = { λ d. d.version };

    ghost invariant = { λ d. IsRanked d.version d.rankings };
}

impl Draft {
    /// The version, taking no memory.
    pub(crate) fn version(&self) -> &Version
        ensures { result.now ≡ self.now }
    {
        &self.version
    }

    /// The same version, taking no memory.
    pub(crate) fn into_version(self) -> Version
        ensures { result ≡ self }
    {
        let Draft { version, .. } = self;
        version
    }

    /// A copy of the draft.
    pub(crate) fn copy(&self) -> Result<Draft, Memory>
        ensures { IfOk result (λ copy. copy ≡ self.now) }
    {
        Ok(Draft {
            alloc: self.alloc,
            version: copy_version(self.alloc, &self.version)?,
            rankings: rankings::copy_rankings(self.alloc, self.rankings.as_slice())?,
        })
    }

    /// The first version: the default family alone.
    pub(crate) fn first(alloc: Global) -> Result<Draft, Memory>
        ensures { IfOk result (λ first. first ≡ first_version) }
    {
        let mut families = Seq::new(alloc);
        families.push(FamilyState {
            id: 0,
            name: Bytes::copy_of(alloc, b"default")?,
            log: 0,
            files: Seq::new(alloc),
        })?;
        let version = Version {
            families,
            log_seen: false,
            next_file: None,
            last_sequence: None,
            least_log: 0,
            greatest_family: 0,
            wals: Seq::new(alloc),
        };
        let mut rankings = Seq::new(alloc);
        rankings.push(Ranking::new(alloc))?;
        Ok(Draft {
            alloc,
            version,
            rankings,
        })
    }

    /// Whether a family has this id.
    pub(crate) fn has_id(&self, id: u32) -> bool
        ensures { result ≡ list_any (has_id id) self.now.families }
    {
        families::has_id(self.version.families.as_slice(), id)
    }

    /// Whether a family has this name.
    pub(crate) fn has_name(&self, name: &[u8]) -> bool
        ensures { result ≡ list_any (has_name name.now) self.now.families }
    {
        families::has_name(self.version.families.as_slice(), name)
    }

    /// Whether a file of any family has this number.
    pub(crate) fn has_file(&self, number: u64) -> bool
        ensures { result ≡ list_any (λ live. list_any (has_number number) live.files) self.now.families }
    {
        families::has_file(self.version.families.as_slice(), number)
    }

    /// Whether the family has a file with this number at this level.
    pub(crate) fn has_file_at(&self, id: u32, level: u32, number: u64) -> bool
        ensures { result ≡ list_any (λ live. has_id id live && list_any (λ file. has_number number file && file.level == level) live.files) self.now.families }
    {
        families::has_file_at(self.version.families.as_slice(), id, level, number)
    }

    /// The version is in order.
    pub(crate) fn show_order(&self)
        ensures { IsInOrder self.now }
    {
        let _version = &self.version;
    }

    /// The family that has this id.
    pub(crate) fn family(&self, id: u32) -> Option<&FamilyState>
        ensures found { option_copied result ≡ find (has_id id) self.now.families }
        ensures order { ForSome (option_copied result) HasFilesInOrder }
    {
        families::find_family(self.version.families.as_slice(), id)
    }

    /// A copy of the family that has this id.
    pub(crate) fn copy_family(&self, id: u32) -> Result<Option<RankedFamily>, Memory>
        ensures { IfOk result (λ copy. copy ≡ find (has_id id) self.now.families) }
    {
        let families = self.version.families.as_slice();
        let rankings = self.rankings.as_slice();
        match place_of_family(families, id) {
            Ok(place) => Ok(Some(RankedFamily::copy_of(
                self.alloc,
                &families[place],
                &rankings[place],
            )?)),
            Err(_) => Ok(None),
        }
    }

    /// Of the tracked logs, those that the edit speaks of, which tracks these.
    pub(crate) fn keep_logs(
        &self,
        view: &EditView<'_>,
        tracks: &[u64],
    ) -> Result<Seq<Tracked>, Memory>
        ensures { IfOk result (λ kept. kept ≡ filter (λ tracked. nat_lt tracked.log (least_kept view.now)) self.now.wals ++ found_all (λ tracked. tracked.log) self.now.wals tracks.now) }
    {
        logs::keep_logs(
            self.alloc,
            self.version.wals.as_slice(),
            view.copy(),
            tracks,
        )
    }

    /// With one more family, whose id none has, and which has no files.
    pub(crate) fn with_family(self, id: u32, name: &[u8]) -> Result<Draft, Memory>
        requires { list_any (has_id id) self.families ≡ false }
        ensures { IfOk result (λ more. more ≡ with_families (add_family id name.now) self) }
    {
        let Draft {
            alloc,
            mut version,
            rankings,
        } = self;
        let families = mem::replace(&mut version.families, Seq::new(alloc));
        let rankings = rankings::with_family(alloc, rankings, families.as_slice(), id)?;
        version.families = families::with_family(alloc, families, id, name)?;
        Ok(Draft {
            alloc,
            version,
            rankings,
        })
    }

    /// Without the family that has this id. Takes no memory.
    pub(crate) fn without_family(self, id: u32) -> Draft
        ensures { result ≡ with_families (drop_family id) self }
    {
        let Draft {
            alloc,
            mut version,
            rankings,
        } = self;
        let families = mem::replace(&mut version.families, Seq::new(alloc));
        let rankings = rankings::without_family(rankings, families.as_slice(), id);
        version.families = families::without_family(families, id);
        Draft {
            alloc,
            version,
            rankings,
        }
    }

    /// With one more file in the family that has this id. No file has its number.
    pub(crate) fn with_file(self, id: u32, file: FileMeta) -> Result<Draft, Memory>
        requires bounds { HasWholeBounds file }
        requires free { list_any (λ live. list_any (has_number file.number) live.files) self.families ≡ false }
        ensures { IfOk result (λ more. more ≡ with_files id (add_meta file) self) }
    {
        let Draft {
            alloc,
            mut version,
            rankings,
        } = self;
        let families = mem::replace(&mut version.families, Seq::new(alloc));
        let rankings = rankings::with_file(alloc, rankings, families.as_slice(), id, &file)?;
        version.families = families::with_file(alloc, families, id, file)?;
        Ok(Draft {
            alloc,
            version,
            rankings,
        })
    }

    /// Without the file of this number in the family that has this id. Takes no memory.
    pub(crate) fn without_file(self, id: u32, number: u64) -> Draft
        ensures { result ≡ with_files id (filter (λ file. not (has_number number file))) self }
    {
        let Draft {
            alloc,
            mut version,
            rankings,
        } = self;
        let families = mem::replace(&mut version.families, Seq::new(alloc));
        let rankings = rankings::without_file(alloc, rankings, families.as_slice(), id, number);
        version.families = families::without_file(alloc, families, id, number);
        Draft {
            alloc,
            version,
            rankings,
        }
    }

    /// Tests whether files overlap at a level above 0. The fault names the lowest family, and in it the lowest
    /// level.
    pub(crate) fn check_overlap(&self) -> Result<(), ApplyFault>
        ensures { Finds (overlap self.now.families) result }
    {
        if rankings::are_apart(self.rankings.as_slice()) {
            Ok(())
        } else {
            find_overlap(self.alloc, self.version.families.as_slice())
        }
    }

    /// With the numbers that an edit states, and the tracked logs after it.
    pub(crate) fn with_numbers(
        self,
        stated: &Stated<'_>,
        view: EditView<'_>,
    ) -> Result<Draft, ApplyFault>
        requires { Tells stated.now view }
        ensures { Gives (Ok (with_numbers view.entry self)) result }
    {
        let Draft {
            alloc,
            mut version,
            rankings,
        } = self;
        let id = stated.family.unwrap_or(0);
        let families = mem::replace(&mut version.families, Seq::new(alloc));
        version.families = families::with_log(families, id, stated.log_number.unwrap_or(0));
        version.log_seen = is_log_seen(version.log_seen, stated.log_number);
        version.next_file = stated.next_file.or(version.next_file);
        version.last_sequence = stated.last_sequence.or(version.last_sequence);
        version.least_log = version.least_log.max(stated.least_log.unwrap_or(0));
        version.greatest_family = version
            .greatest_family
            .max(stated.greatest_family.unwrap_or(0));
        let wals = mem::replace(&mut version.wals, Seq::new(alloc));
        match logs::tracked_after(wals, view) {
            Ok(wals) => {
                version.wals = wals;
                Ok(Draft {
                    alloc,
                    version,
                    rankings,
                })
            }
            Err(Memory) => Err(ApplyFault::Memory),
        }
    }
}

impl Draft {
    /// With a copy of the family, which takes the place of one that has its id.
    pub(crate) fn with_live(self, family: &RankedFamily) -> Result<Draft, Memory>
        ensures { IfOk result (λ more. more ≡ with_families (put (λ live. live.id) family.now) self) }
    {
        let Draft {
            alloc,
            mut version,
            rankings,
        } = self;
        let (live, ranking) = family.copy(alloc)?.into_parts();
        let families = mem::replace(&mut version.families, Seq::new(alloc));
        let rankings = rankings::with_live(rankings, families.as_slice(), &live, ranking)?;
        version.families = families::with_live(families, live)?;
        Ok(Draft {
            alloc,
            version,
            rankings,
        })
    }

    /// With the family that has this id as it was before an edit of which this is kept.
    pub(crate) fn with_family_before(self, id: u32, kept: &KeptFiles) -> Result<Draft, Memory>
        ensures { IfOk result (λ before. before ≡ with_family id (family_before kept.now) self) }
    {
        let Draft {
            alloc,
            mut version,
            rankings,
        } = self;
        let families = mem::replace(&mut version.families, Seq::new(alloc));
        let (families, rankings) = restore::with_family_before(
            alloc, families, rankings, id, kept,
        )?;
        version.families = families;
        Ok(Draft {
            alloc,
            version,
            rankings,
        })
    }

    /// With the numbers and the tracked logs as they were before an edit of which this is kept.
    pub(crate) fn with_numbers_before(self, kept: &KeptEdit) -> Result<Draft, Memory>
        ensures { IfOk result (λ before. before ≡ numbers_before kept.now self) }
    {
        let Draft {
            alloc,
            mut version,
            rankings,
        } = self;
        version.log_seen = kept.log_seen;
        version.next_file = kept.next_file;
        version.last_sequence = kept.last_sequence;
        version.least_log = kept.least_log;
        version.greatest_family = kept.greatest_family;
        let wals = mem::replace(&mut version.wals, Seq::new(alloc));
        version.wals = logs::logs_before(wals, kept.tracks.as_slice(), kept.wals.as_slice())?;
        Ok(Draft {
            alloc,
            version,
            rankings,
        })
    }
}

/// Whether a log number was stated before or is stated now.
fn is_log_seen(before: bool, stated: Option<u64>) -> bool
    ensures { result ≡ (before || is_some stated) }
{
    before || stated.is_some()
}

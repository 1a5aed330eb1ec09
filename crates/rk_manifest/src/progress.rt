//! How far the units of a manifest are applied while it is read.
ghost use Rattle.std.specs.Prelude.{◌≡◌, ◌+◌, ◌<◌, ◌≤◌, ◌^◌, ℕ, true, false, [], ◌∷◌, IfOk};
ghost use Rattle.rk_bytes.specs.Model.LogItems.{rec};
ghost use Rattle.rk_bytes.specs.Model.Manifest.{first_version};
ghost use Rattle.rk_log.specs.Items.{item_of, is_end, piece_bytes};
ghost use Rattle.rk_manifest.specs.Records.{records};
ghost use Rattle.rk_manifest.specs.Fronts.{admits, stated_in};
ghost use Rattle.rk_manifest.specs.Last.{ended_with};

use crate::group::Begun;
use crate::last::Applied;
use crate::reading::{Reading, record_in};
use crate::{ManifestErr, ManifestFault, Version};
use rk_bytes::Memory;
use rk_log::{Item, Piece};
use std::alloc::Global;

/// The units so far, of which each is applied once it is whole, and the edits of an unfinished group.
#[derive(Debug, Drop)]
pub(crate) struct Progress {
    applied: Applied,
    begun: Begun<'static>,
}

impl Progress {
    ghost use Rattle.rk_manifest.specs.Outcomes.{TakesItem};

    /// Before the first item.
    pub(crate) fn new(alloc: Global) -> Result<Progress, Memory>
        ensures applied { IfOk result (λ progress. progress.applied ≡ record { count = 0; builder = first_version }) }
        ensures begun { IfOk result (λ progress. progress.begun.edits ≡ []) }
    {
        Ok(Progress {
            applied: Applied::new(alloc)?,
            begun: Begun::new(alloc),
        })
    }

    /// Takes the next item, and applies the unit that it ends, if it ends one.
    pub(crate) fn take(&mut self, item: Item<'_>) -> Result<Reading, Memory>
        requires { self.old.applied.count + records (item_of item ∷ []) < 2 ^ 64 }
        ensures outcome { TakesItem self.old (item_of item.entry) result self.new }
        ensures more { IfOk result (λ reading. reading ≡ Reading.GoesOn → is_end (item_of item.entry) ≡ false) }
        ensures count { self.new.applied.count ≤ self.old.applied.count + records (item_of item.entry ∷ []) }
    {
        let edit = match record_in(item) {
            Ok(edit) => edit,
            Err(fault) => return Ok(Reading::Ended(fault)),
        };
        match self.begun.join(edit.as_slice(), self.applied.count() + 1) {
            Ok(stated) => self.take_edit(edit, stated),
            Err(fault) => Ok(Reading::Ended(Some(fault))),
        }
    }

    /// Takes the next edit, which states this of its group.
    fn take_edit(&mut self, edit: Piece<'_>, stated: Option<u32>) -> Result<Reading, Memory>
        requires admits { admits self.old.begun.left stated ≡ true }
        requires states { stated_in (piece_bytes edit) ≡ Ok stated }
        requires room { self.old.applied.count + 1 < 2 ^ 64 }
        ensures outcome { (place : ℕ) → TakesItem self.old (rec (piece_bytes edit.entry) place) result self.new }
        ensures count { self.new.applied.count ≤ self.old.applied.count + 1 }
    {
        let Some(unit) = self.begun.take_lent(edit, stated)? else {
            return Ok(Reading::GoesOn);
        };
        match self.applied.apply(&unit) {
            Ok(()) => Ok(Reading::GoesOn),
            Err(ManifestErr::Fault(fault)) => Ok(Reading::Ended(Some(fault))),
            Err(ManifestErr::Memory) => Err(Memory),
        }
    }

    /// The last version, where no item follows, and this fault ended the reading, if one did.
    pub(crate) fn finish(self, fault: Option<ManifestFault>) -> Result<Version, ManifestFault>
        ensures { result ≡ ended_with fault self.applied.builder }
    {
        self.applied.finish(fault)
    }
}

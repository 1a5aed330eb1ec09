ghost use Rattle.std.specs.Prelude.{◌≡◌, None, IsOk, IfOk, MatchResult};
ghost use Rattle.std.specs.Option.{ForSome};
ghost use Rattle.std.specs.List.{All};
ghost use Rattle.rk_log.specs.Items.{piece_bytes};
ghost use Rattle.rk_bytes.specs.Model.VersionEdit.{edit_fields};
ghost use Rattle.rk_bytes.specs.Model.Manifest.{ManifestUnit, first_version};
ghost use Rattle.rk_version.specs.Answers.{Applies};
ghost use Rattle.rk_version.specs.Undoing.{AppliesUndo, Leads, Undoes};
ghost use Rattle.rk_version.specs.Units.{IsUnit};

use crate::draft::Draft;
use crate::undo::{Undo, UndoErr, apply_unit_undo, undo_unit};
use crate::unit::{Unit, apply_known_unit, apply_unit};
use crate::{ApplyFault, Version};
use rk_bytes::Memory;
use std::alloc::Global;
use std::marker::Model;
use std::mem;

/// A version to which the units of a manifest are applied, each whole or not at all.
///
/// The version is kept twice. A unit is applied to the spare one, which takes the place of the other if the
/// unit isn't refused, and then to the other, which becomes the spare one without another test.
#[derive(Debug, Drop)]
pub struct VersionBuilder {
    alloc: Global,
    current: Draft,
    /// Not there before the first unit, and after one that was refused.
    spare: Option<Draft>,
}

impl Model for VersionBuilder {
    ghost use Rattle.std.specs.Prelude.{◌≡◌};
    ghost use Rattle.std.specs.Option.{ForSome};
    ghost use Rattle.rk_bytes.specs.declared.model.manifest.Version.{Version};

    ghost Value = { Version };

    ghost view = { λ b. b.current };

    ghost invariant = { λ b. ForSome b.spare (λ spare. spare ≡ b.current) };
}

impl VersionBuilder {
    /// The version before the first unit: the default family alone, with no files. `Memory` comes only where
    /// memory runs out.
    pub fn new(alloc: Global) -> Result<VersionBuilder, Memory>
        ensures { IfOk result (λ builder. builder ≡ first_version) }
    {
        Ok(VersionBuilder {
            alloc,
            current: Draft::first(alloc)?,
            spare: None,
        })
    }

    /// Applies the unit, or refuses it and leaves the version as it was. The first refusal counts: of an edit,
    /// in their order, `UnsupportedComparator`, then `FamilyExists` or `UnknownFamily`, then `DeleteAbsent` of
    /// the first such file, then `AddPresent`; behind all edits `Overlap`, of the lowest family and of its
    /// lowest level. `Memory` comes only where memory runs out.
    pub fn apply(&mut self, unit: &Unit<'_>) -> Result<(), ApplyFault>
        requires reads { All (λ piece. IsOk (edit_fields (piece_bytes piece))) unit.now.pieces }
        ensures applies { (means : ManifestUnit) → IsUnit unit.now means → Applies means self.old result self.new }
    {
        let before = match take_spare(&mut self.spare, &self.current) {
            Ok(spare) => spare,
            Err(Memory) => return Err(ApplyFault::Memory),
        };
        let after = apply_unit(self.alloc, before, unit)?;
        let old = mem::replace(&mut self.current, after);
        self.spare = apply_known_unit(self.alloc, old, unit).ok();
        Ok(())
    }

    /// Applies the unit as `apply` does, with the same refusals, and gives what leads from the version after it
    /// back to the one before. `Memory` comes only where memory runs out.
    pub fn apply_undo(&mut self, unit: &Unit<'_>) -> Result<Undo, ApplyFault>
        requires reads { All (λ piece. IsOk (edit_fields (piece_bytes piece))) unit.now.pieces }
        ensures applies { (means : ManifestUnit) → IsUnit unit.now means → AppliesUndo means self.old result self.new }
        ensures leads { IfOk result (λ undo. Leads undo self.new self.old) }
    {
        let before = match take_spare(&mut self.spare, &self.current) {
            Ok(spare) => spare,
            Err(Memory) => return Err(ApplyFault::Memory),
        };
        let (after, undo) = apply_unit_undo(self.alloc, before, unit)?;
        let old = mem::replace(&mut self.current, after);
        self.spare = apply_known_unit(self.alloc, old, unit).ok();
        Ok(undo)
    }

    /// Goes back to the version to which the undo leads from this one. Where memory runs out, the version is left
    /// as it was and the undo is handed back.
    pub fn undo(&mut self, undo: Undo) -> Result<(), UndoErr>
        ensures { Undoes undo self.old result self.new }
    {
        match self.go_back(&undo) {
            Ok(()) => Ok(()),
            Err(Memory) => Err(UndoErr::Memory(undo)),
        }
    }

    /// Goes back over the unit, or leaves the version as it was.
    fn go_back(&mut self, undo: &Undo) -> Result<(), Memory>
        ensures { MatchResult result (λ done. Leads undo.now self.old self.new) (λ why. self.new ≡ self.old) }
    {
        let before = take_spare(&mut self.spare, &self.current)?;
        let after = undo_unit(before, undo)?;
        let old = mem::replace(&mut self.current, after);
        self.spare = undo_unit(old, undo).ok();
        Ok(())
    }

    /// The version. Takes no memory.
    pub fn version(&self) -> &Version
        ensures { result.now ≡ self.now }
    {
        self.current.version()
    }

    /// The same version, taking no memory.
    pub fn into_version(self) -> Version
        ensures { result ≡ self }
    {
        let VersionBuilder { current, .. } = self;
        current.into_version()
    }
}

/// Takes the spare version, or makes a copy of the current one where there is none.
fn take_spare(spare: &mut Option<Draft>, current: &Draft) -> Result<Draft, Memory>
    requires { ForSome spare.old (λ draft. draft ≡ current.now) }
    ensures same { IfOk result (λ draft. draft ≡ current.now) }
    ensures taken { spare.new ≡ None }
{
    match spare.take() {
        Some(draft) => Ok(draft),
        None => current.copy(),
    }
}

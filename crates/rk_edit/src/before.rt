//! What is kept of the fields that stand before one.
ghost use Rattle.std.specs.Prelude.{◌≡◌, ◌∷◌, List};
ghost use Rattle.rk_bytes.specs.Model.VersionEdit.{Field as StatedField, clashes};
ghost use Rattle.rk_edit.specs.Fields.{field_of};

use crate::{Field, tag};

/// Whether the edit's family was added or dropped so far. It can't be both.
#[derive(Clone, Copy)]
pub(crate) struct FamilyFields {
    added: bool,
    dropped: bool,
}

impl FamilyFields {
    ghost use Rattle.rk_edit.specs.Before.{Tells};

    /// Before the first field.
    pub(crate) const NONE: FamilyFields = FamilyFields {
        added: false,
        dropped: false,
    };

    /// With one more field.
    pub(crate) fn and(self, field: &Field<'_>) -> FamilyFields
        ensures { (before : List StatedField) → Tells self before → Tells result (field_of field.now ∷ before) }
    {
        FamilyFields {
            added: matches!(field, Field::FamilyAdd(_)) || self.added,
            dropped: matches!(field, Field::FamilyDrop) || self.dropped,
        }
    }

    /// Whether a field with this tag may not follow.
    pub(crate) fn clash_with(self, tag: u32) -> bool
        ensures { (before : List StatedField) → Tells self before → result ≡ clashes tag before }
    {
        tag == tag::FAMILY_DROP && self.added || tag == tag::FAMILY_ADD && self.dropped
    }
}

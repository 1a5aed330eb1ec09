ghost use Rattle.std.specs.Prelude.{◌≡◌};
ghost use Rattle.rk_points.specs.Aims.{Aims, with_field};

use rk_edit::{EditView, Field};

/// The family that an edit speaks of, and whether the edit drops it.
#[derive(Clone, Copy)]
pub(crate) struct Aim {
    /// As it is stated last.
    pub family: Option<u32>,
    pub drops: bool,
}

impl Aim {
    /// What the fields of the edit say.
    pub(crate) fn of(mut view: EditView<'_>) -> Aim
        ensures { Aims result view.entry }
    {
        let mut aim = Aim {
            family: None,
            drops: false,
        };
        while let Some(field) = view.next_field() {
            aim = aim.with(field);
        }
        aim
    }

    /// With one more field.
    fn with(self, field: Field<'_>) -> Aim
        ensures { result ≡ with_field self field.entry }
    {
        let mut aim = self;
        match field {
            Field::Family(id) => aim.family = Some(id),
            Field::FamilyDrop => aim.drops = true,
            _ => {}
        }
        aim
    }
}

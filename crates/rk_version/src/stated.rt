ghost use Rattle.std.specs.Prelude.{◌≡◌};
ghost use Rattle.rk_version.specs.Stated.{with_field, Tells};

use rk_edit::{EditView, Field};

/// What an edit states in fields of which the last counts, and whether it drops its family.
#[derive(Clone, Copy)]
pub(crate) struct Stated<'a> {
    pub comparator: Option<&'a [u8]>,
    pub log_number: Option<u64>,
    pub next_file: Option<u64>,
    pub last_sequence: Option<u64>,
    pub least_log: Option<u64>,
    pub family: Option<u32>,
    pub family_add: Option<&'a [u8]>,
    pub drops_family: bool,
    pub greatest_family: Option<u32>,
}

impl<'a> Stated<'a> {
    /// What the fields of the edit state.
    pub(crate) fn of(mut view: EditView<'a>) -> Stated<'a>
        ensures { Tells result view.entry }
    {
        let mut stated = Stated {
            comparator: None,
            log_number: None,
            next_file: None,
            last_sequence: None,
            least_log: None,
            family: None,
            family_add: None,
            drops_family: false,
            greatest_family: None,
        };
        while let Some(field) = view.next_field() {
            stated = stated.with(field);
        }
        stated
    }

    /// With one more field.
    fn with(self, field: Field<'a>) -> Stated<'a>
        ensures { result ≡ with_field self.entry field.entry }
    {
        let mut stated = self;
        match field {
            Field::Comparator(name) => stated.comparator = Some(name),
            Field::LogNumber(n) => stated.log_number = Some(n),
            Field::NextFile(n) => stated.next_file = Some(n),
            Field::LastSequence(n) => stated.last_sequence = Some(n),
            Field::LeastLog(n) => stated.least_log = Some(n),
            Field::Family(id) => stated.family = Some(id),
            Field::FamilyAdd(name) => stated.family_add = Some(name),
            Field::FamilyDrop => stated.drops_family = true,
            Field::GreatestFamily(id) => stated.greatest_family = Some(id),
            _ => {}
        }
        stated
    }
}

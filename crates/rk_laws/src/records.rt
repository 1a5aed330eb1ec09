//! Laws of records and record maps.
ghost use Rattle.std.specs.Prelude.{◌≡◌, List, ◌++◌};
ghost use Rattle.std.specs.declared.cmp.Ordering.TheVariants.{Equal};
ghost use Rattle.std.specs.Cmp.{IsTotalOrder};
ghost use Rattle.rk_bytes.specs.declared.model.key.Record.{Record};
ghost use Rattle.rk_bytes.specs.Model.Records.{Slot, last_records, over, slot_cmp};

/// Law: slots are in a total order, which tells any two apart.
pub fn slot_order()
    ensures total { IsTotalOrder slot_cmp }
    ensures only_equal { (a b : Slot) → slot_cmp a b ≡ Equal → a ≡ b }
{}

/// Law: the last records of a list after another lie over those of the other.
pub fn last_of_appended()
    ensures { (a b : List Record) → last_records (a ++ b) ≡ over (last_records a) (last_records b) }
{}

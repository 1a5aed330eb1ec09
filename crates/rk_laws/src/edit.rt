//! Laws of version edits.
ghost use Rattle.std.specs.List.{AllByRecursion};
ghost use Rattle.std.specs.Prelude.{◌≡◌, ◌↔◌, ℕ, ◌^◌, ◌<◌, List, Ok};
ghost use Rattle.rk_bytes.specs.Model.Numbers.{AreBytes};
ghost use Rattle.rk_bytes.specs.Model.VersionEdit.{Field, IsEdit, edit_fields};
ghost use Rattle.rk_bytes.specs.Model.Writers.{edit_bytes};
ghost use Rattle.rk_laws.specs.Writable.{IsWritable, AddsOrDrops};

/// Law: the fields that are read of an edit are those that its bytes spell, and there is at most one
/// list of them.
pub fn one_edit()
    ensures read { (bytes : List ℕ) (fields : List Field) → AreBytes bytes → (edit_fields bytes ≡ Ok fields) ↔ IsEdit bytes fields }
    ensures unique { (bytes : List ℕ) (fields others : List Field) → IsEdit bytes fields → IsEdit bytes others → others ≡ fields }
{}

/// Law: written fields, taken as one edit, are read again as the same fields, where each lies within its bounds and
/// no family is both added and dropped.
pub fn written_edit()
    ensures { (fields : List Field) → AllByRecursion IsWritable fields → AddsOrDrops fields → edit_fields (edit_bytes fields) ≡ Ok fields }
{}

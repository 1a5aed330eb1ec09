//! Laws of the view of a key.
ghost use Rattle.std.specs.Prelude.{◌≡◌, ◌≢◌, ℕ, true, false, List, [], Option, map, bytes_eq};
ghost use Rattle.std.specs.List.{AllByRecursion, list_any};
ghost use Rattle.std.specs.List.Sorted.{IsStrictlySortedBy};
ghost use Rattle.std.specs.Ordering.{nat_cmp};
ghost use Rattle.std.specs.Cmp.Lexicographic.{slice_cmp};
ghost use Rattle.std.specs.FinMap.{values};
ghost use Rattle.rk_bytes.specs.declared.model.key.Record.{Record};
ghost use Rattle.rk_bytes.specs.Model.Records.{last_records};
ghost use Rattle.rk_bytes.specs.Model.KeyView.{State, absent, is_covered, view_records, answer, is_between, rows};

/// Law: range deletions that cover no record hide nothing. What decides of a key is what decides among the records alone.
pub fn nothing_hidden()
    ensures { (state : State) (family : ℕ) (key : List ℕ) → AllByRecursion (λ r. is_covered state.tombs r ≡ false) (values state.records) → view_records state family key ≡ view_records (record state { tombs = [] }) family key }
{}

/// Law: where each record stands in its own slot, as the last ones of a list do, the rows of a family strictly rise in their keys, so that
/// each key has one at most.
pub fn rows_rise()
    ensures { (state : State) (records : List Record) → state.records ≡ last_records records → (family : ℕ) (from to : Option (List ℕ)) → IsStrictlySortedBy (slice_cmp nat_cmp) (map (λ row. row.key) (rows state family from to)) }
{}

/// Law: a row shows what is shown of its key, which lies between the bounds, and each such key of which anything is shown has a row.
pub fn rows_are_what_is_shown()
    ensures each { (state : State) (family : ℕ) (from to : Option (List ℕ)) → AllByRecursion (λ row. (is_between from to row.key ≡ true) × (row.answer ≡ answer state family row.key) × (row.answer ≢ absent)) (rows state family from to) }
    ensures every { (state : State) (family : ℕ) (from to : Option (List ℕ)) (key : List ℕ) → is_between from to key ≡ true → answer state family key ≢ absent → list_any (λ row. bytes_eq row.key key) (rows state family from to) ≡ true }
{}

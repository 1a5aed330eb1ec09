//! Laws of the items of a log.
ghost use Rattle.std.specs.Prelude.{◌≡◌, ℕ, List, None};
ghost use Rattle.rk_bytes.specs.Model.LogMarks.{Mark, log_marks};
ghost use Rattle.rk_bytes.specs.Model.LogItems.{Item, Parts, EndsOnce, parting};

/// Law: the marks of a log are parted into items in one way, the one that `parting` gives.
pub fn one_parting()
    ensures marks { (number : ℕ) (bytes : List ℕ) → EndsOnce (log_marks number bytes) }
    ensures exists { (marks : List Mark) → EndsOnce marks → Parts marks (parting None marks) }
    ensures unique { (marks : List Mark) (items others : List Item) → Parts marks items → Parts marks others → others ≡ items }
{}

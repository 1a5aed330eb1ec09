//! Laws of salvage.
ghost use Rattle.std.specs.Prelude.{◌≡◌, ℕ, ◌^◌, ◌<◌, true, List, [], ◌∷◌, length};
ghost use Rattle.std.specs.FinMap.{entries, get};
ghost use Rattle.rk_bytes.specs.declared.model.key.Record.{Record};
ghost use Rattle.rk_bytes.specs.Model.Descent.{may_move};
ghost use Rattle.rk_bytes.specs.Model.DiskImages.{Directory};
ghost use Rattle.rk_bytes.specs.Model.FileNames.{IsFreeLostName, name_of};
ghost use Rattle.rk_bytes.specs.Model.LogItems.{Item};
ghost use Rattle.rk_bytes.specs.Model.Records.{last_records};
ghost use Rattle.rk_bytes.specs.Model.Salvage.{Files, TableFile, taken_records, remainder_of, free_lost_name, last_placed, refuses_file, salvage_families, salvage_records, tables_alone, remainder};

/// Law: the last records of a list, in the order of their places, are those that its record map holds.
pub fn records_in_order()
    ensures { (records : List Record) → last_placed records ≡ entries (last_records records) }
{}

/// Law: where no table has to be added, the kept tables alone hold all that is admitted.
pub fn nothing_to_add()
    ensures { (d : Directory) → remainder d ≡ [] → salvage_records d ≡ tables_alone d }
{}

/// Law: the name that a moved file gets is free, and each that is tried before it is taken.
pub fn one_free_lost_name()
    ensures exists { (name : List ℕ) (taken : List (List ℕ)) → length taken < 2 ^ 64 → IsFreeLostName name taken (free_lost_name name taken) }
    ensures unique { (name : List ℕ) (taken : List (List ℕ)) (a b : List ℕ) → IsFreeLostName name taken a → IsFreeLostName name taken b → b ≡ a }
{}

/// Law: what is salvaged of a directory depends on its files under the names of tables and of logs alone.
pub fn salvage_of_tables_and_logs()
    ensures refuses_file { (x y : Directory) → ((name : List ℕ) → may_move (name_of name) ≡ true → get x name ≡ get y name) → refuses_file x ≡ refuses_file y }
    ensures families { (x y : Directory) → ((name : List ℕ) → may_move (name_of name) ≡ true → get x name ≡ get y name) → salvage_families x ≡ salvage_families y }
    ensures records { (x y : Directory) → ((name : List ℕ) → may_move (name_of name) ≡ true → get x name ≡ get y name) → salvage_records x ≡ salvage_records y }
    ensures remainder { (x y : Directory) → ((name : List ℕ) → may_move (name_of name) ≡ true → get x name ≡ get y name) → remainder x ≡ remainder y }
{}

/// Law: where no table has to be added, the lowest log may go. What is admitted stays, and still no table has to be
/// added.
pub fn lowest_log_may_go()
    ensures records { (files : Files) (tables : List TableFile) (log : ℕ × List Item) (more : List (ℕ × List Item)) → remainder_of (record { files = files; tables = tables; logs = log ∷ more }) ≡ []
        → last_records (taken_records (record { files = files; tables = tables; logs = more })) ≡ last_records (taken_records (record { files = files; tables = tables; logs = log ∷ more })) }
    ensures remainder { (files : Files) (tables : List TableFile) (log : ℕ × List Item) (more : List (ℕ × List Item)) → remainder_of (record { files = files; tables = tables; logs = log ∷ more }) ≡ []
        → remainder_of (record { files = files; tables = tables; logs = more }) ≡ [] }
{}

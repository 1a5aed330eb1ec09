//! Laws of best-efforts opening.
ghost use Rattle.std.specs.Prelude.{◌≡◌, ◌⊎◌, ℕ, suc, ◌<◌, Bool, true, false, List, length, map, take, is_ok, Err};
ghost use Rattle.rk_bytes.specs.declared.model.manifest.FileMeta.{FileMeta};
ghost use Rattle.rk_bytes.specs.declared.model.open.OpenErr.{OpenErr};
ghost use Rattle.rk_bytes.specs.declared.model.open.OpenErr.TheVariants.{UnsupportedTable, NoUsableManifest};
ghost use Rattle.rk_bytes.specs.declared.model.table.TableWhat.{TableWhat};
ghost use Rattle.rk_bytes.specs.declared.model.view.Point.{Point};
ghost use Rattle.rk_bytes.specs.Model.Manifest.{ManifestUnit, version_at};
ghost use Rattle.rk_bytes.specs.Model.Opening.{Files};
ghost use Rattle.rk_bytes.specs.Model.BestEfforts.{all_pass, answers_pass, listed, usable, IsGreatest, best_points, best_files};

/// Law: whatever test tells which families' files are whole at which point, if only a family without
/// files passes it at the point 0, the greatest points that qualify are there, and they are those that
/// `best_points` gives and no others. Each test of files is such a test, and so are answers for the files
/// that units add.
pub fn one_best_vector()
    ensures of_files { (units : List ManifestUnit) (is_whole : FileMeta → Bool) (id : ℕ) → all_pass is_whole units id 0 ≡ true }
    ensures of_answers { (units : List ManifestUnit) (answers : List Bool) (id : ℕ) → answers_pass answers units id 0 ≡ true }
    ensures exists { (units : List ManifestUnit) (whole_at : ℕ → ℕ → Bool) → ((id : ℕ) → whole_at id 0 ≡ true) → IsGreatest units whole_at (best_points units whole_at) }
    ensures unique { (units : List ManifestUnit) (whole_at : ℕ → ℕ → Bool) (points others : List Point) → IsGreatest units whole_at points → IsGreatest units whole_at others → others ≡ points }
{}

/// Law: where each file that units add has a test's answer, the files at a point pass by their answers just
/// where they pass the test.
pub fn answers_of_a_test()
    ensures { (units : List ManifestUnit) (is_whole : FileMeta → Bool) (id point : ℕ) → answers_pass (map is_whole (listed units)) units id point ≡ all_pass is_whole units id point }
{}

/// Law: the usable units are a front of the units, each front of them is applied, and the unit after
/// them is refused where there is one.
pub fn usable_units()
    ensures front { (units : List ManifestUnit) → usable units ≡ take (length (usable units)) units }
    ensures apply { (units : List ManifestUnit) (point : ℕ) → is_ok (version_at (usable units) point) ≡ true }
    ensures refused { (units : List ManifestUnit) → length (usable units) < length units → is_ok (version_at units (suc (length (usable units)))) ≡ false }
{}

/// Law: best-efforts opening is refused only where no manifest can be used, or for a table that isn't
/// supported.
pub fn best_refusals()
    ensures { (files : Files) (numbers : List ℕ) (why : OpenErr) → best_files files numbers ≡ Err why → (why ≡ NoUsableManifest) ⊎ ((n : ℕ) × (what : TableWhat) × (why ≡ UnsupportedTable n what)) }
{}

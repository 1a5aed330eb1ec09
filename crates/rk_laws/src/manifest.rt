//! Laws of the units of a manifest, and of the versions that they amount to.
ghost use Rattle.std.specs.Prelude.{◌≡◌, ℕ, List, map, Ok};
ghost use Rattle.std.specs.List.{AllByRecursion};
ghost use Rattle.std.specs.List.Sorted.{IsStrictlySortedBy};
ghost use Rattle.std.specs.Ordering.{nat_cmp};
ghost use Rattle.rk_bytes.specs.declared.model.manifest.Version.{Version};
ghost use Rattle.rk_bytes.specs.Model.LogItems.{Item};
ghost use Rattle.rk_bytes.specs.Model.Manifest.{ManifestUnit, Units, units_of_items, IsUnits, version_at};

/// Law: a manifest's log is parted into units in one way, the one that `units_of_items` gives.
pub fn one_list_of_units()
    ensures exists { (items : List Item) → IsUnits items (units_of_items items) }
    ensures unique { (items : List Item) (read other : Units) → IsUnits items read → IsUnits items other → other ≡ read }
{}

/// Law: of any version that units amount to, the families stand in rising id, the files of each in rising
/// number, and the tracked logs in rising number.
pub fn versions_in_order()
    ensures families { (units : List ManifestUnit) (point : ℕ) (version : Version) → version_at units point ≡ Ok version → IsStrictlySortedBy nat_cmp (map (λ live. live.id) version.families) }
    ensures files { (units : List ManifestUnit) (point : ℕ) (version : Version) → version_at units point ≡ Ok version → AllByRecursion (λ live. IsStrictlySortedBy nat_cmp (map (λ file. file.number) live.files)) version.families }
    ensures logs { (units : List ManifestUnit) (point : ℕ) (version : Version) → version_at units point ≡ Ok version → IsStrictlySortedBy nat_cmp (map (λ tracked. tracked.log) version.wals) }
{}

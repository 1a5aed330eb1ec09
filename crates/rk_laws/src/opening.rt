//! Laws of opening.
ghost use Rattle.std.specs.Prelude.{◌≡◌, ℕ, List, Ok};
ghost use Rattle.std.specs.List.Sorted.{IsPermutation, IsNonDecreasingBy};
ghost use Rattle.std.specs.FinMap.{values};
ghost use Rattle.rk_bytes.specs.declared.model.wal.Mode.{Mode};
ghost use Rattle.rk_bytes.specs.declared.model.wal.Mode.TheVariants.{TolerateTail, Absolute, SkipAny};
ghost use Rattle.rk_bytes.specs.Model.DiskImages.{Directory};
ghost use Rattle.rk_bytes.specs.Model.Replay.{Log};
ghost use Rattle.rk_bytes.specs.Model.Opening.{Opened, Listed, in_order, greatest_sequence, open_directory};

/// Law: things in the order of their numbers are those things, and their numbers don't fall.
pub fn things_in_order()
    ensures same { (number : Log → ℕ) (logs : List Log) → IsPermutation logs (in_order number logs) }
    ensures same_tables { (number : Listed → ℕ) (tables : List Listed) → IsPermutation tables (in_order number tables) }
    ensures rising { (number : Log → ℕ) (logs : List Log) → IsNonDecreasingBy number (in_order number logs) }
    ensures rising_tables { (number : Listed → ℕ) (tables : List Listed) → IsNonDecreasingBy number (in_order number tables) }
{}

/// Law: the greatest sequence number that is told of an opened directory is that of its record map.
pub fn top_of_the_records()
    ensures { (mode : Mode) (d : Directory) (opened : Opened) → open_directory mode d ≡ Ok opened → opened.top ≡ greatest_sequence (values opened.state.records) }
{}

/// Law: what a directory is opened to where all damage is refused, it is opened to where a cut-off end is tolerated and where damage is passed
/// over.
pub fn undamaged_opens_alike()
    ensures tolerated { (d : Directory) (opened : Opened) → open_directory Absolute d ≡ Ok opened → open_directory TolerateTail d ≡ Ok opened }
    ensures skipped { (d : Directory) (opened : Opened) → open_directory Absolute d ≡ Ok opened → open_directory SkipAny d ≡ Ok opened }
{}

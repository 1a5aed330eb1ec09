//! Laws of descent.
ghost use Rattle.std.specs.Prelude.{◌≡◌, false};
ghost use Rattle.rk_bytes.specs.Model.DiskImages.{Directory, DiskState, IsImage, resting};
ghost use Rattle.rk_bytes.specs.Model.Salvage.{refuses_file};
ghost use Rattle.rk_bytes.specs.Model.Descent.{Descends, IsReady};

/// Law: a directory of which no table and no log is refused descends from itself.
pub fn descends_from_itself()
    ensures { (d : Directory) → refuses_file d ≡ false → Descends d d }
{}

/// Law: what descends from a descendant of a directory descends from the directory.
pub fn descent_goes_through()
    ensures { (d x y : Directory) → Descends x d → Descends y x → Descends y d }
{}

/// Law: what a stop leaves of a disk that is ready is ready.
pub fn ready_after_a_stop()
    ensures { (disk : DiskState) (d image : Directory) → IsReady disk d → IsImage disk image → IsReady (resting image) d }
{}

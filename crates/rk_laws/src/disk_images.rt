//! Laws of disks.
ghost use Rattle.std.specs.Prelude.{◌≡◌, ◌↔◌, ℕ, List};
ghost use Rattle.rk_bytes.specs.Model.DiskImages.{Directory, DiskState, contents, directory, names_now, Survive, IsImage, IsAtRest, resting, folder_synced};

/// Law: a disk at rest reads as the files that it was made of.
pub fn contents_at_rest()
    ensures contents { (files : Directory) → contents (resting files) ≡ files }
    ensures rest { (files : Directory) → IsAtRest (resting files) }
{}

/// Law: a disk as it reads is one of its images, and where it is at rest there is no other.
pub fn one_image_at_rest()
    ensures contents { (state : DiskState) → IsImage state (contents state) }
    ensures rest { (state : DiskState) (image : Directory) → IsAtRest state → IsImage state image → image ≡ contents state }
{}

/// Law: an image, taken as a disk at rest, has itself as its one image.
pub fn image_of_an_image()
    ensures { (image other : Directory) → IsImage (resting image) other ↔ (other ≡ image) }
{}

/// Law: where the names are synced, a stop can change the bytes of unsynced files alone.
pub fn images_of_synced_names()
    ensures { (state : DiskState) (image : Directory) → IsImage (folder_synced state) image ↔ ((bytes : List (List ℕ)) × Survive state.files bytes × (image ≡ directory (names_now state) bytes)) }
{}

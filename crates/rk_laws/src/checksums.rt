//! Laws of checksums.
ghost use Rattle.std.specs.Prelude.{◌≡◌, ℕ, ◌^◌, ◌<◌, List, ◌++◌};
ghost use Rattle.rk_bytes.specs.Model.Checksums.{crc32c, crc32c_extended, mask, unmask};

/// Law: a mask and its removal are inverse to each other.
pub fn mask_round_trip()
    ensures sum { (sum : ℕ) → sum < 2 ^ 32 → unmask (mask sum) ≡ sum }
    ensures stored { (stored : ℕ) → stored < 2 ^ 32 → mask (unmask stored) ≡ stored }
{}

/// Law: a sum is extended by the bytes that follow.
pub fn crc32c_of_appended()
    ensures { (front bytes : List ℕ) → crc32c_extended (crc32c front) bytes ≡ crc32c (front ++ bytes) }
{}

//! Laws of write batches.
ghost use Rattle.std.specs.Prelude.{◌≡◌, ◌↔◌, ℕ, ◌^◌, ◌<◌, List, Ok};
ghost use Rattle.rk_bytes.specs.Model.Numbers.{AreBytes};
ghost use Rattle.rk_bytes.specs.Model.WriteBatch.{Batch, IsBatch, batch_of};

/// Law: the batch that is read of bytes is the one that they are, and there is at most one.
pub fn one_batch()
    ensures read { (bytes : List ℕ) (batch : Batch) → AreBytes bytes → (batch_of bytes ≡ Ok batch) ↔ IsBatch bytes batch }
    ensures unique { (bytes : List ℕ) (batch other : Batch) → IsBatch bytes batch → IsBatch bytes other → other ≡ batch }
{}

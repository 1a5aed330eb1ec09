ghost use Rattle.std.specs.Prelude.{◌≡◌, ℕ, ◌++◌, List, take, Option, OnOk, IsErrOf, option_map};
ghost use Rattle.rk_bytes.specs.Model.DiskImages.{Counts};
ghost use Rattle.rk_disk.specs.Faults.{sink_failed};

use rk_bytes::Memory;

/// Why an output didn't take all bytes.
#[derive(Clone, Copy, Debug, PartialEq, Eq)]
pub enum SinkErr {
    /// The output failed, and counted it. It may have taken a front of the bytes.
    Failed,
    /// Memory ran out. It took none of the bytes.
    Memory,
}

impl From<Memory> for SinkErr {
    ghost use Rattle.rk_disk.specs.declared.sink.SinkErr.TheVariants as errors;

    ghost from_gives = { λ _ e. e ≡ errors.Memory };

    fn from(_: Memory) -> SinkErr {
        SinkErr::Memory
    }
}

/// An output, which takes bytes one piece after another. It may hold back some of what it took, until
/// it is flushed.
///
/// An output may tell what it took. Whether it does never changes.
pub trait Sink {
    /// The bytes taken so far, where the output tells them.
    ghost taken: { Self → Option (List ℕ) };

    /// How many calls have failed. It stands still at the last value of a `u64`.
    ghost faults: { Self → ℕ };

    /// Takes all the bytes, or says why not.
    fn write(&mut self, bytes: &[u8]) -> Result<(), SinkErr>
        ensures ok { OnOk result (taken self.new ≡ option_map (λ front. front ++ bytes.now) (taken self.old)) }
        ensures failed { IsErrOf result SinkErr.Failed → (n : ℕ) × (taken self.new ≡ option_map (λ front. front ++ take n bytes.now) (taken self.old)) }
        ensures memory { IsErrOf result SinkErr.Memory → taken self.new ≡ taken self.old }
        ensures faults { Counts (sink_failed result) (faults self.old) (faults self.new) };

    /// Hands on what was taken and is still held back. Whatever it answers, no byte is taken and none
    /// is given up.
    fn flush(&mut self) -> Result<(), SinkErr>
        ensures taken { taken self.new ≡ taken self.old }
        ensures faults { Counts (sink_failed result) (faults self.old) (faults self.new) };
}

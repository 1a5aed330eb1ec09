use crate::ManifestFault;
use rk_bytes::Memory;

/// Why a manifest has no last version.
#[derive(Clone, Copy, Debug, PartialEq, Eq)]
pub enum ManifestErr {
    /// Its first fault, never one of memory.
    Fault(ManifestFault),
    /// Memory ran out.
    Memory,
}

impl From<ManifestFault> for ManifestErr {
    ghost use Rattle.std.specs.Prelude.{◌≡◌};
    ghost use Rattle.rk_manifest.specs.declared.error.ManifestErr.TheVariants as errors;

    ghost from_gives = { λ fault error. error ≡ errors.Fault fault };

    fn from(fault: ManifestFault) -> ManifestErr {
        ManifestErr::Fault(fault)
    }
}

impl From<Memory> for ManifestErr {
    ghost use Rattle.std.specs.Prelude.{◌≡◌};
    ghost use Rattle.rk_manifest.specs.declared.error.ManifestErr.TheVariants as errors;

    ghost from_gives = { λ _ error. error ≡ errors.Memory };

    fn from(_: Memory) -> ManifestErr {
        ManifestErr::Memory
    }
}

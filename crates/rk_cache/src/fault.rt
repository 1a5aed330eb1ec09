ghost use Rattle.std.specs.Prelude.{◌≡◌};

use rk_bytes::Memory;
use rk_disk::DiskErr;
use rk_meta::TrailerFault;
use std::alloc::AllocError;

/// Why a block isn't given.
#[derive(Clone, Copy, Debug, PartialEq, Eq)]
pub enum CacheFault {
    /// It doesn't pass the tests of its trailer.
    Trailer(TrailerFault),
    /// The disk failed, and counted it.
    Disk,
    /// Memory ran out.
    Memory,
}

impl From<DiskErr> for CacheFault {
    ghost use Rattle.rk_cache.specs.Faults.{disk_fault};

    ghost from_gives = { λ error fault. fault ≡ disk_fault error };

    fn from(error: DiskErr) -> CacheFault {
        match error {
            DiskErr::Failed => CacheFault::Disk,
            DiskErr::Memory => CacheFault::Memory,
        }
    }
}

impl From<Memory> for CacheFault {
    ghost use Rattle.rk_cache.specs.declared.fault.CacheFault.TheVariants as faults;

    ghost from_gives = { λ _ fault. fault ≡ faults.Memory };

    fn from(_: Memory) -> CacheFault {
        CacheFault::Memory
    }
}

/// Why a table's status isn't found.
#[derive(Clone, Copy, Debug, PartialEq, Eq)]
pub enum SourceErr {
    /// The disk failed, and counted it.
    Disk,
    /// Memory ran out.
    Memory,
}

impl From<DiskErr> for SourceErr {
    ghost use Rattle.rk_cache.specs.Faults.{source_err};

    ghost from_gives = { λ error fault. fault ≡ source_err error };

    fn from(error: DiskErr) -> SourceErr {
        match error {
            DiskErr::Failed => SourceErr::Disk,
            DiskErr::Memory => SourceErr::Memory,
        }
    }
}

impl From<Memory> for SourceErr {
    ghost use Rattle.rk_cache.specs.declared.fault.SourceErr.TheVariants as errors;

    ghost from_gives = { λ _ error. error ≡ errors.Memory };

    fn from(_: Memory) -> SourceErr {
        SourceErr::Memory
    }
}

impl From<AllocError> for SourceErr {
    ghost use Rattle.rk_cache.specs.declared.fault.SourceErr.TheVariants as errors;

    ghost from_gives = { λ _ error. error ≡ errors.Memory };

    fn from(_: AllocError) -> SourceErr {
        SourceErr::Memory
    }
}

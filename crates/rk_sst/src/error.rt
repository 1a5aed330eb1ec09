ghost use Rattle.std.specs.Prelude.{◌≡◌};
ghost use Rattle.rk_sst.specs.Errors.{block_err};

use rk_bytes::Memory;
use rk_cache::{CacheFault, SourceErr};
use rk_disk::DiskErr;
use rk_table::{TableWhat, TableWhy, TrailerFault, WalkErr};

/// Why a table isn't opened, or its records aren't given.
#[derive(Clone, Copy, Debug, PartialEq, Eq)]
pub enum SstErr {
    /// No table has that number.
    NoTable,
    /// The table is damaged: the first fault, and its place.
    Damaged { why: TableWhy, place: u64 },
    /// Something in it isn't supported.
    Unsupported(TableWhat),
    /// The disk failed, and counted it.
    DiskFault,
    /// Memory ran out.
    Memory,
}

impl From<Memory> for SstErr {
    ghost use Rattle.rk_sst.specs.declared.error.SstErr.TheVariants as errors;

    ghost from_gives = { λ _ error. error ≡ errors.Memory };

    fn from(_: Memory) -> SstErr {
        SstErr::Memory
    }
}

impl From<DiskErr> for SstErr {
    ghost use Rattle.rk_sst.specs.Errors.{disk_err};

    ghost from_gives = { λ error given. given ≡ disk_err error };

    fn from(error: DiskErr) -> SstErr {
        match error {
            DiskErr::Failed => SstErr::DiskFault,
            DiskErr::Memory => SstErr::Memory,
        }
    }
}

impl From<SourceErr> for SstErr {
    ghost use Rattle.rk_sst.specs.Errors.{source_err};

    ghost from_gives = { λ error given. given ≡ source_err error };

    fn from(error: SourceErr) -> SstErr {
        match error {
            SourceErr::Disk => SstErr::DiskFault,
            SourceErr::Memory => SstErr::Memory,
        }
    }
}

impl From<WalkErr> for SstErr {
    ghost use Rattle.rk_sst.specs.Errors.{walk_err};

    ghost from_gives = { λ error given. given ≡ walk_err error };

    fn from(error: WalkErr) -> SstErr {
        match error {
            WalkErr::Damaged { why, place } => SstErr::Damaged { why, place },
            WalkErr::Unsupported(what) => SstErr::Unsupported(what),
            WalkErr::Memory => SstErr::Memory,
        }
    }
}

/// What the fault of a block at this place makes of its table.
pub(crate) fn block_err(place: u64, fault: CacheFault) -> SstErr
    ensures { result ≡ block_err place fault }
{
    match fault {
        CacheFault::Trailer(TrailerFault::OutOfFile) => SstErr::Damaged {
            why: TableWhy::OutOfFile,
            place,
        },
        CacheFault::Trailer(TrailerFault::Checksum) => SstErr::Damaged {
            why: TableWhy::Checksum,
            place,
        },
        CacheFault::Trailer(TrailerFault::Compressed(kind)) => {
            SstErr::Unsupported(TableWhat::Compressed(kind))
        }
        CacheFault::Disk => SstErr::DiskFault,
        CacheFault::Memory => SstErr::Memory,
    }
}

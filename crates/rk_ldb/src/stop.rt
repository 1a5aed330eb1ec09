ghost use Rattle.std.specs.Prelude.{◌≡◌};

use rk_bytes::Memory;
use rk_disk::{DiskErr, SinkErr};
use std::alloc::AllocError;

/// Why a command stopped before its output's end.
#[derive(Clone, Copy, Debug, PartialEq, Eq)]
pub(crate) enum Stop {
    /// A call of the disk failed.
    Disk,
    /// A call of the output failed.
    Sink,
    /// Memory ran out.
    Memory,
}

impl From<DiskErr> for Stop {
    ghost use Rattle.rk_ldb.specs.Stops.{disk_stop};

    ghost from_gives = { λ error stop. stop ≡ disk_stop error };

    fn from(error: DiskErr) -> Stop {
        match error {
            DiskErr::Failed => Stop::Disk,
            DiskErr::Memory => Stop::Memory,
        }
    }
}

impl From<SinkErr> for Stop {
    ghost use Rattle.rk_ldb.specs.Stops.{sink_stop};

    ghost from_gives = { λ error stop. stop ≡ sink_stop error };

    fn from(error: SinkErr) -> Stop {
        match error {
            SinkErr::Failed => Stop::Sink,
            SinkErr::Memory => Stop::Memory,
        }
    }
}

impl From<AllocError> for Stop {
    ghost use Rattle.rk_ldb.specs.declared.stop.Stop.TheVariants as stops;

    ghost from_gives = { λ _ stop. stop ≡ stops.Memory };

    fn from(_: AllocError) -> Stop {
        Stop::Memory
    }
}

impl From<Memory> for Stop {
    ghost use Rattle.rk_ldb.specs.declared.stop.Stop.TheVariants as stops;

    ghost from_gives = { λ _ stop. stop ≡ stops.Memory };

    fn from(_: Memory) -> Stop {
        Stop::Memory
    }
}

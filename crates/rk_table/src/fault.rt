//! What the faults of a table's parts make of the table.
ghost use Rattle.std.specs.Prelude.{◌≡◌, Some};
ghost use Rattle.rk_bytes.specs.Model.TableStatus.{footer_status, trailer_status, block_status, index_status, range_status};
ghost use Rattle.rk_table.specs.Told.{fault_of};

use crate::{TableWhat, TableWhy, WalkErr};
use rk_bytes::model::{BlockFault, FooterFault, IndexFault, RangeFault, TrailerFault};

/// What a footer's fault makes of a table whose footer stands at this place.
pub(crate) fn footer_fault(place: u64, fault: FooterFault) -> WalkErr
    ensures { fault_of result ≡ Some (footer_status place fault) }
{
    match fault {
        FooterFault::FooterShort => damaged(TableWhy::FooterShort, place),
        FooterFault::BadMagic => damaged(TableWhy::BadMagic, place),
        FooterFault::UnsupportedVersion(version) => {
            WalkErr::Unsupported(TableWhat::Version(version))
        }
        FooterFault::UnsupportedChecksum(kind) => WalkErr::Unsupported(TableWhat::Checksum(kind)),
        FooterFault::BadHandle => damaged(TableWhy::BadHandle, place),
    }
}

/// What the fault of a trailer makes of the table, whose block stands at this place.
pub(crate) fn trailer_fault(place: u64, fault: TrailerFault) -> WalkErr
    ensures { fault_of result ≡ Some (trailer_status place fault) }
{
    match fault {
        TrailerFault::OutOfFile => damaged(TableWhy::OutOfFile, place),
        TrailerFault::Checksum => damaged(TableWhy::Checksum, place),
        TrailerFault::Compressed(kind) => WalkErr::Unsupported(TableWhat::Compressed(kind)),
    }
}

/// What the fault of a block at this place makes of the table.
pub(crate) fn block_fault(place: u64, fault: BlockFault) -> WalkErr
    ensures { fault_of result ≡ Some (block_status place fault) }
{
    match fault {
        BlockFault::HashIndex => WalkErr::Unsupported(TableWhat::HashIndex),
        BlockFault::Short | BlockFault::BadRestarts | BlockFault::BadEntry(_) => {
            damaged(TableWhy::Block, place)
        }
    }
}

/// A damage at this place.
pub(crate) fn damaged(why: TableWhy, place: u64) -> WalkErr
    ensures { result ≡ WalkErr.Damaged why place }
{
    WalkErr::Damaged { why, place }
}

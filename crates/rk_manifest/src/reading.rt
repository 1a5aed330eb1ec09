//! Whether the reading of a manifest goes on, and what ends it.
ghost use Rattle.std.specs.Prelude.{◌≡◌};
ghost use Rattle.rk_log.specs.Items.{item_of};
ghost use Rattle.rk_manifest.specs.Records.{IsRecord, fault_at_end};

use crate::{ManifestFault, ManifestWhy};
use rk_log::{EndKind, Item, Piece};

/// Whether the reading of a manifest goes on.
#[derive(Clone, Copy, Debug, PartialEq, Eq)]
pub(crate) enum Reading {
    /// More may follow.
    GoesOn,
    /// It has ended: with this fault, if there was one.
    Ended(Option<ManifestFault>),
}

/// The record that an item is, or what ends the manifest's edits there: a fault, or the log's end.
pub(crate) fn record_in(item: Item<'_>) -> Result<Piece<'_>, Option<ManifestFault>>
    ensures { IsRecord (item_of item.entry) result }
{
    match item {
        Item::Rec(edit, _) => Ok(edit),
        Item::Gap(why, place) => Err(Some(damaged(place, ManifestWhy::Gap(why)))),
        Item::End(kind, place) => Err(fault_at_end(kind, place)),
    }
}

/// The fault that a log's end at this place is, if it is one.
fn fault_at_end(kind: EndKind, place: u64) -> Option<ManifestFault>
    ensures { result ≡ fault_at_end kind place }
{
    match kind {
        EndKind::Unsupported(kind) => Some(damaged(place, ManifestWhy::Unsupported(kind))),
        EndKind::Clean | EndKind::Torn | EndKind::Stale => None,
    }
}

/// The fault of a log that is damaged at this place.
fn damaged(place: u64, why: ManifestWhy) -> ManifestFault
    ensures { result ≡ ManifestFault.Damaged place why }
{
    ManifestFault::Damaged { place, why }
}

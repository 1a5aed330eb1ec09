//! What an item of a log is to replay.
ghost use Rattle.std.specs.Prelude.{◌≡◌};
ghost use Rattle.rk_bytes.specs.Model.Replay.{finding, finding_of_record};
ghost use Rattle.rk_bytes.specs.Model.WriteBatch.{batch_of};
ghost use Rattle.rk_log.specs.Items.{item_of};
ghost use Rattle.rk_walmode.specs.Founds.{finding_in, IsWhole};

use crate::{LogWhat, WalWhy};
use rk_batch::{BatchFault, BatchView};
use rk_log::{EndKind, Item};

/// What an item of a log is to replay.
#[derive(Debug, Drop)]
pub(crate) enum Found<'a> {
    /// A record that reads as a batch.
    Batch(BatchView<'a>),
    /// Damage, with its place in the log.
    Damage(WalWhy, u64),
    /// Something that isn't supported.
    Unsupported(LogWhat),
    /// The end at an earlier life of the file.
    StaleEnd,
    /// The end of a file of which nothing is cut off.
    CleanEnd,
}

/// What an item is.
pub(crate) fn find<'a>(item: &'a Item<'_>) -> Found<'a>
    ensures finding { finding_in result ≡ finding (item_of item.now) }
    ensures whole { IsWhole result }
{
    match item {
        Item::Rec(payload, place) => find_batch(payload.as_slice(), *place),
        Item::Gap(why, place) => Found::Damage(WalWhy::Gap(*why), *place),
        Item::End(EndKind::Clean, _) => Found::CleanEnd,
        Item::End(EndKind::Torn, place) => Found::Damage(WalWhy::Torn, *place),
        Item::End(EndKind::Stale, _) => Found::StaleEnd,
        Item::End(EndKind::Unsupported(kind), _) => {
            Found::Unsupported(LogWhat::RecordType(*kind))
        }
    }
}

/// What a record with these bytes is, at its place in the log.
fn find_batch(payload: &[u8], place: u64) -> Found<'_>
    ensures finding { finding_in result ≡ finding_of_record place (batch_of payload.now) }
    ensures whole { IsWhole result }
{
    match BatchView::read(payload) {
        Ok(batch) => Found::Batch(batch),
        Err(BatchFault::UnsupportedTag(tag)) => Found::Unsupported(LogWhat::Tag(tag)),
        Err(why) => Found::Damage(WalWhy::Batch(why), place),
    }
}

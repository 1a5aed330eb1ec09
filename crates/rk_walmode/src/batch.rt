//! The records of a batch that are admitted.
ghost use Rattle.std.specs.Prelude.{◌≡◌, ◌&&◌, ◌∷◌, ◌++◌, [], filter, nat_le, OnOk};
ghost use Rattle.std.specs.List.{All, list_any};
ghost use Rattle.rk_bytes.specs.Model.Manifest.{has_id};
ghost use Rattle.rk_bytes.specs.Model.WriteBatch.{changes};
ghost use Rattle.rk_bytes.specs.Model.Replay.{is_wanted};
ghost use Rattle.rk_batch.specs.Seen.{part_of};
ghost use Rattle.rk_walmode.specs.Low.{IsLow};

use rk_batch::{BatchRecord, BatchView};
use rk_bytes::model::{Record, Version};
use rk_bytes::{Bytes, Memory, Seq};
use std::alloc::Global;

/// Adds the records of a batch of the log with this number that no table holds.
pub(crate) fn add_records(
    alloc: Global,
    version: &Version,
    log: u64,
    mut batch: BatchView<'_>,
    records: &mut Seq<Record>,
) -> Result<(), Memory>
    ensures added { OnOk result (records.new ≡ records.old ++ filter (is_wanted version.now log) (changes batch.entry.left)) }
    ensures low { All IsLow (changes batch.entry.left) → All IsLow records.old → All IsLow records.new }
{
    while let Some(part) = batch.next_record() {
        add_part(alloc, version, log, part, records)?;
    }
    Ok(())
}

/// Adds the record that a part of a batch is, if it is one that no table holds.
fn add_part(
    alloc: Global,
    version: &Version,
    log: u64,
    part: BatchRecord<'_>,
    records: &mut Seq<Record>,
) -> Result<(), Memory>
    ensures added { OnOk result (records.new ≡ records.old ++ filter (is_wanted version.now log) (changes (part_of part.entry ∷ []))) }
    ensures low { All IsLow (changes (part_of part.entry ∷ [])) → All IsLow records.old → All IsLow records.new }
{
    if let BatchRecord::Change {
        family,
        kind,
        key,
        value,
        sequence,
        ..
    } = part
    {
        if is_wanted(version, log, family) {
            let record = Record {
                family,
                key: Bytes::copy_of(alloc, key)?,
                sequence,
                kind,
                value: Bytes::copy_of(alloc, value)?,
            };
            records.push(record)?;
        }
    }
    Ok(())
}

/// Whether the family is live and may have records in this log that no table holds.
fn is_wanted(version: &Version, log: u64, family: u32) -> bool
    ensures { result ≡ list_any (λ live. has_id family live && nat_le live.log log) version.now.families }
{
    version
        .families
        .as_slice()
        .iter()
        .any(|live| live.id == family && live.log <= log)
}

//! The two logs, each of which has one put in each batch.
ghost use Rattle.std.specs.Prelude.{◌≡◌, ◌+◌, ◌^◌, ◌<◌, ◌≤◌, [], ◌∷◌, map, IfOk};
ghost use Rattle.rk_bytes.specs.Model.InternalKey.{top_sequence};
ghost use Rattle.rk_bytes.specs.Model.Writers.{batch_bytes};
ghost use Rattle.rk_bytes.specs.Model.Drill.{drill_put, up_to, log_of_puts, drill_torn_log, drill_log};
ghost use Rattle.rk_gen.specs.Puts.{put_above};

use crate::numbers::{key_with, value_with};
use rk_batch::{BatchBuilder, Kind};
use rk_bytes::{Bytes, Memory};
use rk_log::LogWriter;
use std::alloc::Global;

/// The first log, which puts `number` further keys, each with its own value, and lacks its last byte. `Memory`
/// comes only where memory runs out.
pub(crate) fn torn_log(alloc: Global, number: u64) -> Result<Bytes, Memory>
    requires { number ≤ 100000 }
    ensures { IfOk result (λ log. log ≡ drill_torn_log number) }
{
    let mut log = log_of_puts(alloc, number, number, number)?;
    let len = log.as_slice().len();
    log.truncate(len.saturating_sub(1));
    Ok(log)
}

/// The second log, which puts later values under the keys from 1 to `number`. `Memory` comes only where memory
/// runs out.
pub(crate) fn later_log(alloc: Global, number: u64) -> Result<Bytes, Memory>
    requires { number ≤ 100000 }
    ensures { IfOk result (λ log. log ≡ drill_log number) }
{
    log_of_puts(alloc, number, 2 * number, 0)
}

/// A log of `count` puts, each in a batch. Counted from 1, each puts the key with its number above `keys`, and
/// its number above `sequences` is both its value's and its sequence number. `Memory` comes only where memory
/// runs out.
fn log_of_puts(alloc: Global, count: u64, sequences: u64, keys: u64) -> Result<Bytes, Memory>
    requires sequences { sequences + count ≤ top_sequence }
    requires keys { keys + count < 2 ^ 64 }
    ensures { IfOk result (λ log. log ≡ log_of_puts (map (put_above sequences keys) (up_to count))) }
{
    let mut log = LogWriter::new(alloc, None);
    for before in 0..count {
        let place = before + 1;
        let batch = batch_of_put(alloc, sequences + place, keys + place)?;
        log.add(batch.as_slice())?;
    }
    Ok(log.finish())
}

/// The batch of one put of the key with a number, at a sequence number, which is the value's number, too.
/// `Memory` comes only where memory runs out.
fn batch_of_put(alloc: Global, sequence: u64, key: u64) -> Result<Bytes, Memory>
    requires { sequence ≤ top_sequence }
    ensures { IfOk result (λ batch. batch ≡ batch_bytes sequence (drill_put sequence key sequence ∷ [])) }
{
    let mut batch = BatchBuilder::new(alloc, sequence)?;
    batch.add(0, Kind::Value, &key_with(key), &value_with(sequence))?;
    Ok(batch.finish())
}

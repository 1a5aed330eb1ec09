ghost use Rattle.std.specs.Prelude.{◌≡◌, ◌≤◌, List, [], ◌∷◌, ◌++◌, map, None, unwrap_or, IfOk, OnOk};
ghost use Rattle.std.specs.List.{All};
ghost use Rattle.rk_bytes.specs.declared.model.key.Record.{Record};
ghost use Rattle.rk_bytes.specs.Model.InternalKey.{top_sequence};
ghost use Rattle.rk_bytes.specs.Model.Replay.{Log, replay};
ghost use Rattle.rk_walmode.specs.Fed.{Replays, log_of};
ghost use Rattle.rk_walmode.specs.Runs.{version_of, mode_of, open_log, bytes_read, HasFed};
ghost use Rattle.rk_walmode.specs.Parts.{RefusesLogs};

use crate::{LogFile, Mode, ReplayRun, Replayed, WalErr};
use rk_bytes::model::Version;
use rk_log::BLOCK_LEN;
use std::alloc::Global;

/// Replays logs, which come in rising number, over a version and in a mode. An error says why they aren't
/// replayed, and `Memory` comes only where memory runs out.
pub fn replay(
    alloc: Global,
    logs: &[LogFile],
    version: &Version,
    mode: Mode,
) -> Result<Replayed, WalErr>
    requires { unwrap_or version.now.last_sequence 0 ≤ top_sequence }
    ensures replayed { Replays (replay mode version.now (map log_of logs.now)) result }
    ensures sequences { IfOk result (λ replayed. All (λ (r : Record). r.sequence ≤ top_sequence) replayed.records) }
{
    let mut run = ReplayRun::new(alloc, version, mode);
    match feed_logs(&mut run, logs) {
        Ok(()) => run.finish(),
        Err(why) => Err(why),
    }
}

/// Hands in whole logs, before which no other was.
fn feed_logs(run: &mut ReplayRun<'_>, logs: &[LogFile]) -> Result<(), WalErr>
    requires log { open_log run.old ≡ None }
    requires read { bytes_read run.old ≡ 0 }
    requires fed { HasFed run.old (record { whole = []; begun = None }) }
    ensures fed { OnOk result (HasFed run.new (record { whole = map log_of logs.now; begun = None })) }
    ensures refused { RefusesLogs (mode_of run.old) (version_of run.old) (map log_of logs.now) result }
    ensures version { version_of run.new ≡ version_of run.old }
    ensures mode { mode_of run.new ≡ mode_of run.old }
    ensures log { OnOk result (open_log run.new ≡ None) }
{
    for log in logs {
        feed_log(run, log)?;
    }
    Ok(())
}

/// Hands in a whole log behind other ones.
fn feed_log(run: &mut ReplayRun<'_>, log: &LogFile) -> Result<(), WalErr>
    requires log { open_log run.old ≡ None }
    requires read { bytes_read run.old ≡ 0 }
    ensures fed { (whole : List Log) → HasFed run.old (record { whole = whole; begun = None }) → OnOk result (HasFed run.new (record { whole = whole ++ log_of log.now ∷ []; begun = None })) }
    ensures refused { (whole : List Log) → HasFed run.old (record { whole = whole; begun = None }) → RefusesLogs (mode_of run.old) (version_of run.old) (whole ++ log_of log.now ∷ []) result }
    ensures version { version_of run.new ≡ version_of run.old }
    ensures mode { mode_of run.new ≡ mode_of run.old }
    ensures log { OnOk result (open_log run.new ≡ None) }
    ensures read { OnOk result (bytes_read run.new ≡ 0) }
{
    let mut rest = log.bytes.as_slice();
    while rest.len() > BLOCK_LEN {
        let (block, later) = rest.split_at(BLOCK_LEN);
        run.feed(log.number, block, false)?;
        rest = later;
    }
    run.feed(log.number, rest, true)
}

//! The tracked logs of a version, in rising number.
ghost use Rattle.std.specs.Prelude.{◌≡◌, ◌==◌, ◌++◌, not, filter, nat_lt, IfOk};
ghost use Rattle.rk_bytes.specs.Model.VersionEdit.{wal_add, wal_delete};
ghost use Rattle.rk_bytes.specs.Model.Manifest.{track_field, tracked_after};
ghost use Rattle.rk_version.specs.Keeping.{least_kept};
ghost use Rattle.rk_version.specs.Keyed.{put, put_all, without_all, found_all};
ghost use Rattle.rk_version.specs.Places.{Rises};

use crate::Tracked;
use crate::place::place_of_log;
use rk_bytes::{Memory, Seq};
use rk_edit::{EditView, Field};
use std::alloc::Global;

/// The tracked logs after the fields of an edit, which act in order.
pub(crate) fn tracked_after(
    logs: Seq<Tracked>,
    mut view: EditView<'_>,
) -> Result<Seq<Tracked>, Memory>
    requires { Rises (λ tracked. tracked.log) logs }
    ensures { IfOk result (λ after. after ≡ tracked_after view.entry logs) }
{
    let mut logs = logs.into_vec();
    while let Some(field) = view.next_field() {
        match field {
            Field::WalAdd { log, synced } => {
                track(&mut logs, log, synced)?;
            }
            Field::WalDelete(log) => untrack(&mut logs, log),
            _ => {}
        }
    }
    Ok(Seq::from_vec(logs))
}

/// Tracks one more log. One that is tracked keeps its synced size where none is given. Where memory runs out,
/// it changes nothing.
fn track(logs: &mut Vec<Tracked>, log: u64, synced: Option<u64>) -> Result<(), Memory>
    requires { Rises (λ tracked. tracked.log) logs.old.items }
    ensures { IfOk result (λ done. logs.new.items ≡ track_field logs.old.items (wal_add log synced)) }
{
    match place_of_log(logs, log) {
        Ok(place) => {
            let known = logs[place].synced;
            logs[place] = Tracked {
                log,
                synced: synced.or(known),
            };
        }
        Err(place) => logs.insert(place, Tracked { log, synced })?,
    }
    Ok(())
}

/// Tracks the logs with lower numbers no longer.
fn untrack(logs: &mut Vec<Tracked>, log: u64)
    ensures { logs.new.items ≡ track_field logs.old.items (wal_delete log) }
{
    logs.retain(|tracked| log <= tracked.log);
}

/// Of the tracked logs, those that the edit speaks of, which tracks these: the logs below one that it forgets,
/// and those that it tracks itself. Some may stand twice.
pub(crate) fn keep_logs(
    alloc: Global,
    logs: &[Tracked],
    view: EditView<'_>,
    tracks: &[u64],
) -> Result<Seq<Tracked>, Memory>
    requires { Rises (λ tracked. tracked.log) logs.now }
    ensures { IfOk result (λ kept. kept ≡ filter (λ tracked. nat_lt tracked.log (least_kept view.entry)) logs.now ++ found_all (λ tracked. tracked.log) logs.now tracks.now) }
{
    let mut kept = Seq::from_vec(Vec::from_slice(alloc, logs_below(logs, least_kept(view)))?);
    for log in tracks {
        if let Ok(place) = place_of_log(logs, *log) {
            kept.push(logs[place])?;
        }
    }
    Ok(kept)
}

/// The tracked logs with lower numbers.
fn logs_below<'a>(logs: &'a [Tracked], least: u64) -> &'a [Tracked]
    requires { Rises (λ tracked. tracked.log) logs.now }
    ensures { result.now ≡ filter (λ tracked. nat_lt tracked.log least) logs.now }
{
    match place_of_log(logs, least) {
        Ok(place) => &logs[..place],
        Err(place) => &logs[..place],
    }
}

/// The least number of a log that the edit doesn't forget.
fn least_kept(mut view: EditView<'_>) -> u64
    ensures { result ≡ least_kept view.entry }
{
    let mut least: u64 = 0;
    while let Some(field) = view.next_field() {
        if let Field::WalDelete(log) = field {
            least = least.max(log);
        }
    }
    least
}

/// The tracked logs before an edit that tracks these logs, of which those are kept.
pub(crate) fn logs_before(
    logs: Seq<Tracked>,
    tracks: &[u64],
    kept: &[Tracked],
) -> Result<Seq<Tracked>, Memory>
    requires { Rises (λ tracked. tracked.log) logs }
    ensures { IfOk result (λ before. before ≡ put_all (λ tracked. tracked.log) kept.now (without_all (λ tracked. tracked.log) tracks.now logs)) }
{
    let mut logs = logs.into_vec();
    for log in tracks {
        remove_log(&mut logs, *log);
    }
    put_logs(logs, kept)
}

/// Tracks the log no longer, if it is tracked. Takes no memory.
fn remove_log(logs: &mut Vec<Tracked>, log: u64)
    requires { Rises (λ tracked. tracked.log) logs.old.items }
    ensures { logs.new.items ≡ filter (λ tracked. not (tracked.log == log)) logs.old.items }
{
    if let Ok(place) = place_of_log(logs, log) {
        logs.remove(place);
    }
}

/// The tracked logs with others, each of which takes the place of one with its number.
fn put_logs(logs: Vec<Tracked>, kept: &[Tracked]) -> Result<Seq<Tracked>, Memory>
    requires { Rises (λ tracked. tracked.log) logs.items }
    ensures { IfOk result (λ before. before ≡ put_all (λ tracked. tracked.log) kept.now logs.items) }
{
    let mut logs = logs;
    for tracked in kept {
        put_log(&mut logs, *tracked)?;
    }
    Ok(Seq::from_vec(logs))
}

/// Puts a tracked log in its place, or in that of the one with its number.
fn put_log(logs: &mut Vec<Tracked>, tracked: Tracked) -> Result<(), Memory>
    requires { Rises (λ tracked. tracked.log) logs.old.items }
    ensures { IfOk result (λ done. logs.new.items ≡ put (λ tracked. tracked.log) tracked logs.old.items) }
{
    match place_of_log(logs, tracked.log) {
        Ok(place) => logs[place] = tracked,
        Err(place) => logs.insert(place, tracked)?,
    }
    Ok(())
}

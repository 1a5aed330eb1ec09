//! The logs of a directory, replayed block by block.
ghost use Rattle.std.specs.Prelude.{◌≡◌, ◌+◌, ◌^◌, ◌<◌, ◌≤◌, ◌∷◌, ◌++◌, [], ℕ, List, false, true, None, length, filter, filter_map, map, nat_le, unwrap_or, if◌then◌else◌, Some, IfErr, IfOk, IfSome, OnOk};
ghost use Rattle.std.specs.List.{All, cons_option};
ghost use Rattle.std.specs.FinMap.{keys};
ghost use Rattle.rk_bytes.specs.declared.model.key.Record.{Record};
ghost use Rattle.rk_bytes.specs.declared.model.open.OpenErr.TheVariants.{Wal};
ghost use Rattle.rk_bytes.specs.Model.BlockEntries.{with_fault};
ghost use Rattle.rk_bytes.specs.Model.DiskImages.{IsLeft, Counts, contents_told};
ghost use Rattle.rk_bytes.specs.Model.FileNames.{name_of};
ghost use Rattle.rk_bytes.specs.Model.InternalKey.{top_sequence};
ghost use Rattle.rk_bytes.specs.Model.Manifest.{first_log};
ghost use Rattle.rk_bytes.specs.Model.Replay.{Log, replay};
ghost use Rattle.rk_disk.specs.Parts.{OfFile};
ghost use Rattle.rk_walmode.specs.Fed.{Fed, replayed_of};
ghost use Rattle.rk_walmode.specs.Runs.{version_of, mode_of, open_log, bytes_read, HasFed};
ghost use Rattle.rk_open.specs.Answers.{AnswersBy, IsCause, open_failed};
ghost use Rattle.rk_open.specs.Logs.{replay_fault, log_number, log_numbers, log_in, needed_logs, fed_whole, FeedsLogs, FeedsBlock};

use crate::OpenErr;
use crate::fault::not_read;
use rk_bytes::model::{Mode, Version, WalErr};
use rk_bytes::{Memory, Text};
use rk_disk::{Disk, read_part};
use rk_log::BLOCK_LEN;
use rk_names::{FileName, read_name, write_name};
use rk_version::first_log;
use rk_walmode::{ReplayRun, Replayed};
use std::alloc::Global;

/// What the logs from the first one on that is needed add to a version, in a mode. `Wal` says why they can't be
/// replayed, `DiskFault` comes where the disk fails, and `Memory` where memory runs out. One buffer serves for all
/// of their blocks.
pub(crate) fn replay_logs<D: Disk>(
    alloc: Global,
    disk: &mut D,
    version: &Version,
    mode: Mode,
) -> Result<Replayed, OpenErr>
    requires { unwrap_or version.now.last_sequence 0 ≤ top_sequence }
    ensures replayed { IfSome (contents_told (D.told disk.old)) (λ d. AnswersBy replayed_of (with_fault Wal (replay mode version.now (needed_logs (first_log version.now) d))) result) }
    ensures sequences { IfOk result (λ replayed. All (λ (r : Record). r.sequence ≤ top_sequence) replayed.records) }
    ensures faults { Counts (open_failed result) (D.faults disk.old) (D.faults disk.new) }
    ensures left { IsLeft (D.told disk.old) (D.told disk.new) }
{
    let numbers = log_numbers(alloc, disk)?;
    replay_numbered(alloc, disk, version, mode, numbers.as_slice())
}

/// The numbers of all logs, rising.
fn log_numbers<D: Disk>(alloc: Global, disk: &mut D) -> Result<Vec<u64>, OpenErr>
    ensures numbers { IfOk result (λ numbers. IfSome (contents_told (D.told disk.old)) (λ d. numbers.items ≡ log_numbers (keys d))) }
    ensures cause { IfErr result IsCause }
    ensures faults { Counts (open_failed result) (D.faults disk.old) (D.faults disk.new) }
    ensures left { IsLeft (D.told disk.old) (D.told disk.new) }
{
    match disk.names(alloc) {
        Ok(names) => match numbers_in_order(alloc, names.as_slice()) {
            Ok(numbers) => Ok(numbers),
            Err(Memory) => Err(OpenErr::Memory),
        },
        Err(why) => Err(not_read(why)),
    }
}

/// The numbers of the logs among names, rising.
fn numbers_in_order(alloc: Global, names: &[Text]) -> Result<Vec<u64>, Memory>
    ensures { IfOk result (λ numbers. numbers.items ≡ log_numbers names.now) }
{
    let mut numbers = numbers_among(alloc, names)?;
    numbers.sort()?;
    Ok(numbers)
}

/// The numbers of the logs among names.
fn numbers_among(alloc: Global, names: &[Text]) -> Result<Vec<u64>, Memory>
    ensures { IfOk result (λ numbers. numbers.items ≡ filter_map (λ name. log_number (name_of name)) names.now) }
{
    let mut numbers = Vec::new(alloc);
    for name in names {
        push_number(&mut numbers, read_name(name.as_str()))?;
    }
    Ok(numbers)
}

/// Puts the number of a log's name at the end.
fn push_number(numbers: &mut Vec<u64>, name: FileName) -> Result<(), Memory>
    ensures { OnOk result (numbers.new.items ≡ numbers.old.items ++ cons_option (log_number name) []) }
{
    match name {
        FileName::Log(number) => {
            numbers.push(number)?;
            Ok(())
        }
        _ => Ok(()),
    }
}

/// Replays the logs with these numbers, but for those below the first one that is needed.
fn replay_numbered<D: Disk>(
    alloc: Global,
    disk: &mut D,
    version: &Version,
    mode: Mode,
    numbers: &[u64],
) -> Result<Replayed, OpenErr>
    requires { unwrap_or version.now.last_sequence 0 ≤ top_sequence }
    ensures replayed { IfSome (contents_told (D.told disk.old)) (λ d. AnswersBy replayed_of (with_fault Wal (replay mode version.now (map (log_in d) (filter (nat_le (first_log version.now)) numbers.now)))) result) }
    ensures sequences { IfOk result (λ replayed. All (λ (r : Record). r.sequence ≤ top_sequence) replayed.records) }
    ensures faults { Counts (open_failed result) (D.faults disk.old) (D.faults disk.new) }
    ensures left { IsLeft (D.told disk.old) (D.told disk.new) }
{
    let mut run = ReplayRun::new(alloc, version, mode);
    match feed_logs(alloc, disk, first_log(version), numbers, &mut run) {
        Ok(()) => finished(run),
        Err(why) => Err(why),
    }
}

/// Feeds the logs with these numbers to a run, but for those below the first one that is needed.
fn feed_logs<D: Disk>(
    alloc: Global,
    disk: &mut D,
    first: u64,
    numbers: &[u64],
    run: &mut ReplayRun<'_>,
) -> Result<(), OpenErr>
    requires log { open_log run.old ≡ None }
    requires read { bytes_read run.old ≡ 0 }
    ensures fed { IfSome (contents_told (D.told disk.old)) (λ d. FeedsLogs run.old (map (log_in d) (filter (nat_le first) numbers.now)) result run.new) }
    ensures version { version_of run.new ≡ version_of run.old }
    ensures mode { mode_of run.new ≡ mode_of run.old }
    ensures log { OnOk result (open_log run.new ≡ None) }
    ensures faults { Counts (open_failed result) (D.faults disk.old) (D.faults disk.new) }
    ensures left { IsLeft (D.told disk.old) (D.told disk.new) }
{
    let Ok(mut buffer) = vec![in alloc; 0; BLOCK_LEN] else {
        return Err(OpenErr::Memory);
    };
    feed_needed(alloc, disk, first, numbers, run, &mut buffer)
}

/// The same, with a buffer for a block.
fn feed_needed<D: Disk>(
    alloc: Global,
    disk: &mut D,
    first: u64,
    numbers: &[u64],
    run: &mut ReplayRun<'_>,
    buffer: &mut [u8],
) -> Result<(), OpenErr>
    requires log { open_log run.old ≡ None }
    requires read { bytes_read run.old ≡ 0 }
    requires room { length buffer.old ≡ BLOCK_LEN }
    ensures fed { IfSome (contents_told (D.told disk.old)) (λ d. FeedsLogs run.old (map (log_in d) (filter (nat_le first) numbers.now)) result run.new) }
    ensures version { version_of run.new ≡ version_of run.old }
    ensures mode { mode_of run.new ≡ mode_of run.old }
    ensures log { OnOk result (open_log run.new ≡ None) }
    ensures faults { Counts (open_failed result) (D.faults disk.old) (D.faults disk.new) }
    ensures left { IsLeft (D.told disk.old) (D.told disk.new) }
{
    for number in numbers {
        feed_if_needed(alloc, disk, first, *number, run, buffer)?;
    }
    Ok(())
}

/// Feeds the log with this number to a run, unless it is below the first one that is needed.
fn feed_if_needed<D: Disk>(
    alloc: Global,
    disk: &mut D,
    first: u64,
    number: u64,
    run: &mut ReplayRun<'_>,
    buffer: &mut [u8],
) -> Result<(), OpenErr>
    requires log { open_log run.old ≡ None }
    requires read { bytes_read run.old ≡ 0 }
    requires room { length buffer.old ≡ BLOCK_LEN }
    ensures fed { IfSome (contents_told (D.told disk.old)) (λ d. FeedsLogs run.old (map (log_in d) (filter (nat_le first) (number ∷ []))) result run.new) }
    ensures version { version_of run.new ≡ version_of run.old }
    ensures mode { mode_of run.new ≡ mode_of run.old }
    ensures log { OnOk result (open_log run.new ≡ None) }
    ensures read { OnOk result (bytes_read run.new ≡ 0) }
    ensures room { length buffer.new ≡ BLOCK_LEN }
    ensures faults { Counts (open_failed result) (D.faults disk.old) (D.faults disk.new) }
    ensures left { IsLeft (D.told disk.old) (D.told disk.new) }
{
    if number < first {
        return Ok(());
    }
    feed_log(alloc, disk, number, run, buffer)
}

/// Feeds the log with this number to a run.
fn feed_log<D: Disk>(
    alloc: Global,
    disk: &mut D,
    number: u64,
    run: &mut ReplayRun<'_>,
    buffer: &mut [u8],
) -> Result<(), OpenErr>
    requires log { open_log run.old ≡ None }
    requires read { bytes_read run.old ≡ 0 }
    requires room { length buffer.old ≡ BLOCK_LEN }
    ensures fed { IfSome (contents_told (D.told disk.old)) (λ d. FeedsLogs run.old (log_in d number ∷ []) result run.new) }
    ensures version { version_of run.new ≡ version_of run.old }
    ensures mode { mode_of run.new ≡ mode_of run.old }
    ensures log { OnOk result (open_log run.new ≡ None) }
    ensures read { OnOk result (bytes_read run.new ≡ 0) }
    ensures room { length buffer.new ≡ BLOCK_LEN }
    ensures faults { Counts (open_failed result) (D.faults disk.old) (D.faults disk.new) }
    ensures left { IsLeft (D.told disk.old) (D.told disk.new) }
{
    let Ok(name) = write_name(alloc, &FileName::Log(number)) else {
        return Err(OpenErr::Memory);
    };
    match disk.size(name.as_str()) {
        Ok(Some(size)) => feed_file(disk, name.as_str(), size, number, run, buffer),
        Ok(None) => feed_block(run, number, &[], true),
        Err(why) => Err(not_read(why)),
    }
}

/// Feeds all blocks of a log's file, of which the disk says that it has `size` bytes.
fn feed_file<D: Disk>(
    disk: &mut D,
    name: &str,
    size: u64,
    number: u64,
    run: &mut ReplayRun<'_>,
    buffer: &mut [u8],
) -> Result<(), OpenErr>
    requires log { open_log run.old ≡ None }
    requires read { bytes_read run.old ≡ 0 }
    requires room { length buffer.old ≡ BLOCK_LEN }
    ensures fed { OfFile (D.told disk.old) name.now size (λ bytes. FeedsLogs run.old (record { number = number; bytes = bytes } ∷ []) result run.new) }
    ensures version { version_of run.new ≡ version_of run.old }
    ensures mode { mode_of run.new ≡ mode_of run.old }
    ensures log { OnOk result (open_log run.new ≡ None) }
    ensures read { OnOk result (bytes_read run.new ≡ 0) }
    ensures room { length buffer.new ≡ BLOCK_LEN }
    ensures faults { Counts (open_failed result) (D.faults disk.old) (D.faults disk.new) }
    ensures left { IsLeft (D.told disk.old) (D.told disk.new) }
{
    let mut at = 0;
    loop {
        let (len, last) = match read_part(disk, name, at, size, buffer) {
            Ok(part) => part,
            Err(why) => return Err(not_read(why)),
        };
        feed_block(run, number, &buffer[..len], last)?;
        if last {
            return Ok(());
        }
        at += BLOCK_LEN as u64;
    }
}

/// Feeds a block of a log to a run.
fn feed_block(run: &mut ReplayRun<'_>, number: u64, block: &[u8], last: bool) -> Result<(), OpenErr>
    requires same_log { IfSome (open_log run.old) (λ log. log ≡ number) }
    requires within { length block.now ≤ BLOCK_LEN }
    requires full { last ≡ false → length block.now ≡ BLOCK_LEN }
    requires fits { bytes_read run.old + length block.now < 2 ^ 64 }
    ensures fed { FeedsBlock run.old number block.now last result run.new }
    ensures version { version_of run.new ≡ version_of run.old }
    ensures mode { mode_of run.new ≡ mode_of run.old }
    ensures log { open_log run.new ≡ (if last then None else Some number) }
    ensures read { bytes_read run.new ≤ bytes_read run.old + length block.now }
    ensures read_whole { last ≡ true → bytes_read run.new ≡ 0 }
    ensures no_fault { open_failed result ≡ false }
{
    match run.feed(number, block, last) {
        Ok(()) => Ok(()),
        Err(why) => Err(not_replayed(why)),
    }
}

/// What the logs that were fed add.
fn finished(run: ReplayRun<'_>) -> Result<Replayed, OpenErr>
    requires { open_log run ≡ None }
    ensures replayed { (fed : Fed) → HasFed run.entry fed → AnswersBy replayed_of (with_fault Wal (replay (mode_of run.entry) (version_of run.entry) fed.whole)) result }
    ensures sequences { IfOk result (λ replayed. All (λ (r : Record). r.sequence ≤ top_sequence) replayed.records) }
    ensures no_fault { open_failed result ≡ false }
{
    match run.finish() {
        Ok(replayed) => Ok(replayed),
        Err(why) => Err(not_replayed(why)),
    }
}

/// Why nothing is opened where replay gives nothing.
fn not_replayed(why: WalErr) -> OpenErr
    ensures { result ≡ replay_fault why }
{
    match why {
        WalErr::Memory => OpenErr::Memory,
        _ => OpenErr::Wal(why),
    }
}

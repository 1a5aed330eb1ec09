//! A directory opened in one of the four recovery modes.
ghost use Rattle.std.specs.Prelude.{◌≡◌, ◌≤◌, [], List, map, unwrap_or, IfErr, IfOk, IfSome};
ghost use Rattle.std.specs.List.{All};
ghost use Rattle.rk_bytes.specs.declared.model.command.How.TheVariants as how;
ghost use Rattle.rk_bytes.specs.declared.model.key.Record.{Record};
ghost use Rattle.rk_bytes.specs.Model.DiskImages.{IsLeft, Counts, contents_told};
ghost use Rattle.rk_bytes.specs.Model.InternalKey.{top_sequence};
ghost use Rattle.rk_bytes.specs.Model.Opening.{TableFile, open_directory};
ghost use Rattle.rk_bytes.specs.Model.Output.{state_of};
ghost use Rattle.rk_bytes.specs.declared.model.manifest.Version.{Version as Stated};
ghost use Rattle.rk_walmode.specs.Fed.{replayed_of};
ghost use Rattle.rk_open.specs.Answers.{AnswersAs, AnswersBy, open_failed};
ghost use Rattle.rk_open.specs.Opened.{opened_of, opened_by, opened_over, filled_at, replayed_at, IsFilled, IsLoaded, IsTopOf};
ghost use Rattle.rk_open.specs.Versions.{IsLast, StatesAll};

use crate::loaded::Loaded;
use crate::logs::replay_logs;
use crate::state::{add_replayed, state_of_families};
use crate::tables::add_tables;
use crate::tracked::check_tracked;
use crate::{OpenErr, Opened, last_version, named_manifest};
use rk_bytes::Memory;
use rk_bytes::model::{Mode, Version};
use rk_disk::Disk;
use rk_view::State;
use rk_walmode::Replayed;
use std::alloc::Global;

/// What the directory is opened to in a mode. The first refusal counts: `NoCurrent`, `BadCurrent`, `NoManifest` and
/// `Manifest`; then of the listed tables, in rising number, `MissingTable`, `SizeMismatch`, `DamagedTable`,
/// `UnsupportedTable` or `OutOfBounds`; then of the tracked logs, in rising number, `MissingLog` or `ShortLog`; then
/// `Wal`, of replay. `DiskFault` comes where the disk fails, and `Memory` where memory runs out.
pub fn open_full<D: Disk>(alloc: Global, disk: &mut D, mode: Mode) -> Result<Opened, OpenErr>
    ensures opened { IfSome (contents_told (D.told disk.old)) (λ d. AnswersBy opened_of (open_directory mode d) result) }
    ensures version { IfOk result (λ opened. StatesAll opened.version) }
    ensures top { IfOk result (λ opened. IsTopOf opened.top opened.state.state) }
    ensures faults { Counts (open_failed result) (D.faults disk.old) (D.faults disk.new) }
    ensures left { IsLeft (D.told disk.old) (D.told disk.new) }
{
    match named_manifest(alloc, disk) {
        Ok(manifest) => open_manifest(alloc, disk, mode, manifest),
        Err(why) => Err(why),
    }
}

/// The state that the directory is opened to in a mode, or the refusal of `open_full`.
pub fn open_db<D: Disk>(alloc: Global, disk: &mut D, mode: Mode) -> Result<State, OpenErr>
    ensures state { IfSome (contents_told (D.told disk.old)) (λ d. AnswersBy (λ kept. kept.state) (state_of (how.Normal mode) d) result) }
    ensures faults { Counts (open_failed result) (D.faults disk.old) (D.faults disk.new) }
    ensures left { IsLeft (D.told disk.old) (D.told disk.new) }
{
    match open_full(alloc, disk, mode) {
        Ok(opened) => Ok(opened.state),
        Err(why) => Err(why),
    }
}

/// What the directory is opened to by the manifest with this number.
fn open_manifest<D: Disk>(
    alloc: Global,
    disk: &mut D,
    mode: Mode,
    manifest: u64,
) -> Result<Opened, OpenErr>
    ensures opened { IfSome (contents_told (D.told disk.old)) (λ d. AnswersBy opened_of (opened_by mode d manifest) result) }
    ensures version { IfOk result (λ opened. StatesAll opened.version) }
    ensures top { IfOk result (λ opened. IsTopOf opened.top opened.state.state) }
    ensures faults { Counts (open_failed result) (D.faults disk.old) (D.faults disk.new) }
    ensures left { IsLeft (D.told disk.old) (D.told disk.new) }
{
    match last_version(alloc, disk, manifest) {
        Ok(version) => open_version(alloc, disk, mode, manifest, version),
        Err(why) => Err(why),
    }
}

/// What the directory is opened to by this version of the manifest with this number.
fn open_version<D: Disk>(
    alloc: Global,
    disk: &mut D,
    mode: Mode,
    manifest: u64,
    version: Version,
) -> Result<Opened, OpenErr>
    requires { IsLast version }
    ensures opened { IfSome (contents_told (D.told disk.old)) (λ d. AnswersBy opened_of (opened_over mode d manifest version) result) }
    ensures version { IfOk result (λ opened. StatesAll opened.version) }
    ensures top { IfOk result (λ opened. IsTopOf opened.top opened.state.state) }
    ensures faults { Counts (open_failed result) (D.faults disk.old) (D.faults disk.new) }
    ensures left { IsLeft (D.told disk.old) (D.told disk.new) }
{
    match fill(alloc, disk, mode, &version) {
        Ok(filled) => Ok(Opened {
            state: filled.state,
            version,
            manifest,
            expected: filled.expected,
            stopped: filled.stopped,
            top: filled.top,
        }),
        Err(why) => Err(why),
    }
}

/// What a version's tables and logs come to.
#[derive(Debug, Drop)]
struct Filled {
    state: State,
    expected: u64,
    stopped: Option<u64>,
    top: u64,
}

/// The state of a version's families, with what their tables hold and the logs add.
fn fill<D: Disk>(
    alloc: Global,
    disk: &mut D,
    mode: Mode,
    version: &Version,
) -> Result<Filled, OpenErr>
    requires { IsLast version.now }
    ensures filled { IfSome (contents_told (D.told disk.old)) (λ d. AnswersAs (λ both filled. IsFilled version.now both.0 both.1 filled) (filled_at mode d version.now) result) }
    ensures top { IfOk result (λ filled. IsTopOf filled.top filled.state.state) }
    ensures faults { Counts (open_failed result) (D.faults disk.old) (D.faults disk.new) }
    ensures left { IsLeft (D.told disk.old) (D.told disk.new) }
{
    let Ok(state) = state_of_families(alloc, version) else {
        return Err(OpenErr::Memory);
    };
    match add_tables(alloc, disk, version, state) {
        Ok(loaded) => add_logs(alloc, disk, mode, version, loaded),
        Err(why) => Err(why),
    }
}

/// The state of a version's tables, with what the logs add.
fn add_logs<D: Disk>(
    alloc: Global,
    disk: &mut D,
    mode: Mode,
    version: &Version,
    loaded: Loaded,
) -> Result<Filled, OpenErr>
    requires last { IsLast version.now }
    requires top { IsTopOf loaded.top loaded.state.state }
    ensures filled { IfSome (contents_told (D.told disk.old)) (λ d. (tables : List TableFile) → IsLoaded version.now tables loaded → AnswersAs (IsFilled version.now tables) (replayed_at mode d version.now) result) }
    ensures top { IfOk result (λ filled. IsTopOf filled.top filled.state.state) }
    ensures faults { Counts (open_failed result) (D.faults disk.old) (D.faults disk.new) }
    ensures left { IsLeft (D.told disk.old) (D.told disk.new) }
{
    match replay_tested(alloc, disk, mode, version) {
        Ok(replayed) => with_replayed(loaded, replayed),
        Err(why) => Err(why),
    }
}

/// What the logs add to a version, once those that are tracked are tested.
fn replay_tested<D: Disk>(
    alloc: Global,
    disk: &mut D,
    mode: Mode,
    version: &Version,
) -> Result<Replayed, OpenErr>
    requires { IsLast version.now }
    ensures replayed { IfSome (contents_told (D.told disk.old)) (λ d. AnswersBy replayed_of (replayed_at mode d version.now) result) }
    ensures sequences { IfOk result (λ replayed. All (λ (r : Record). r.sequence ≤ top_sequence) replayed.records) }
    ensures faults { Counts (open_failed result) (D.faults disk.old) (D.faults disk.new) }
    ensures left { IsLeft (D.told disk.old) (D.told disk.new) }
{
    match check_tracked(alloc, disk, version) {
        Ok(()) => replay_logs(alloc, disk, version, mode),
        Err(why) => Err(why),
    }
}

/// The state of tables, with what logs add.
fn with_replayed(loaded: Loaded, replayed: Replayed) -> Result<Filled, OpenErr>
    requires sequences { All (λ (r : Record). r.sequence ≤ top_sequence) replayed.records }
    requires top { IsTopOf loaded.top loaded.state.state }
    ensures filled { IfOk result (λ filled. (version : Stated) (tables : List TableFile) → IsLoaded version tables loaded → IsFilled version tables (replayed_of replayed) filled) }
    ensures memory { IfErr result (λ why. why ≡ OpenErr.Memory) }
    ensures top { IfOk result (λ filled. IsTopOf filled.top filled.state.state) }
{
    let Loaded { mut state, top } = loaded;
    let Replayed {
        records,
        expected,
        stopped,
    } = replayed;
    match add_replayed(&mut state, records, top) {
        Ok(top) => Ok(Filled {
            state,
            expected,
            stopped,
            top,
        }),
        Err(Memory) => Err(OpenErr::Memory),
    }
}

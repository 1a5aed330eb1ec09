//! What a manifest is opened to as far as whole tables go.
ghost use Rattle.std.specs.Prelude.{◌≡◌, [], length, map, Ok, IsOk, IfErr, IfOk, IfSome};
ghost use Rattle.std.specs.List.{All};
ghost use Rattle.std.specs.Option.{option_map};
ghost use Rattle.std.specs.FinMap.{get};
ghost use Rattle.rk_bytes.specs.Model.BestEfforts.{all_pass, best_points, best_with, is_whole_in, usable, usable_units, IsVector};
ghost use Rattle.rk_bytes.specs.Model.BlockEntries.{collected};
ghost use Rattle.rk_bytes.specs.Model.DiskImages.{IsLeft, Counts, contents_told};
ghost use Rattle.rk_bytes.specs.Model.Manifest.{first_version, manifest_units, version_after, version_at};
ghost use Rattle.rk_bytes.specs.Model.Opening.{family_line, listed_tables, state_with, table_file};
ghost use Rattle.rk_manifest.specs.Units.{ReadsWhole};
ghost use Rattle.rk_version.specs.Places.{Rises};
ghost use Rattle.rk_version.specs.Units.{meaning};
ghost use Rattle.rk_open.specs.Answers.{AnswersAs, AnswersBy, IsCause, open_failed};
ghost use Rattle.rk_open.specs.Best.{best_of, best_from, best_if};
ghost use Rattle.rk_open.specs.Reads.{AreKept};
ghost use Rattle.rk_open.specs.Tables.{HaveWholeBounds};

use crate::OpenErr;
use crate::best::Best;
use crate::fault::not_read;
use crate::kept::KeptTables;
use crate::listed::sorted_tables;
use crate::placed::placed;
use crate::state::add_families;
use crate::tables::add_each;
use crate::usable::{is_complete, usable_units};
use crate::whole::{TestedFiles, test_files};
use rk_bytes::model::{FamilyState, Point, Version};
use rk_bytes::{Memory, Seq};
use rk_disk::{Disk, read_file};
use rk_laws::{answers_of_a_test, one_best_vector};
use rk_manifest::read_units;
use rk_names::{FileName, write_name};
use rk_points::{best_points, listed};
use rk_version::Unit;
use rk_view::State;
use std::alloc::Global;

/// What the manifest with this number is opened to, and `None` where its units that count don't state all that a
/// version needs. `UnsupportedTable` names the lowest table at the points that isn't supported, `DiskFault` comes
/// where the disk fails, and `Memory` where memory runs out.
pub(crate) fn open_if_complete<D: Disk>(
    alloc: Global,
    disk: &mut D,
    number: u64,
) -> Result<Option<Best>, OpenErr>
    ensures best { IfSome (contents_told (D.told disk.old)) (λ d. AnswersBy (option_map best_of) (best_if (get d) number (usable_units (get d) number)) result) }
    ensures faults { Counts (open_failed result) (D.faults disk.old) (D.faults disk.new) }
    ensures left { IsLeft (D.told disk.old) (D.told disk.new) }
{
    let Ok(name) = write_name(alloc, &FileName::Manifest(number)) else {
        return Err(OpenErr::Memory);
    };
    match read_file(alloc, disk, name.as_str()) {
        Ok(Some(bytes)) => open_bytes(alloc, disk, number, bytes.as_slice()),
        Ok(None) => Ok(None),
        Err(why) => Err(not_read(why)),
    }
}

/// The same of a manifest of these bytes.
fn open_bytes<D: Disk>(
    alloc: Global,
    disk: &mut D,
    number: u64,
    bytes: &[u8],
) -> Result<Option<Best>, OpenErr>
    ensures best { IfSome (contents_told (D.told disk.old)) (λ d. AnswersBy (option_map best_of) (best_if (get d) number (usable (manifest_units bytes.now).units)) result) }
    ensures faults { Counts (open_failed result) (D.faults disk.old) (D.faults disk.new) }
    ensures left { IsLeft (D.told disk.old) (D.told disk.new) }
{
    match read_units(alloc, bytes) {
        Ok(read) => open_read(alloc, disk, number, read.units.as_slice()),
        Err(Memory) => Err(OpenErr::Memory),
    }
}

/// The same of a manifest of these units.
fn open_read<D: Disk>(
    alloc: Global,
    disk: &mut D,
    number: u64,
    units: &[Unit<'_>],
) -> Result<Option<Best>, OpenErr>
    requires { All ReadsWhole units.now }
    ensures best { IfSome (contents_told (D.told disk.old)) (λ d. AnswersBy (option_map best_of) (best_if (get d) number (usable (map meaning units.now))) result) }
    ensures faults { Counts (open_failed result) (D.faults disk.old) (D.faults disk.new) }
    ensures left { IsLeft (D.told disk.old) (D.told disk.new) }
{
    let Ok(front) = usable_units(alloc, units) else {
        return Err(OpenErr::Memory);
    };
    if !is_complete(&front.version) {
        return Ok(None);
    }
    match open_units(alloc, disk, number, &units[..front.count], &front.version) {
        Ok(best) => Ok(Some(best)),
        Err(why) => Err(why),
    }
}

/// What units that are applied are opened to, of the manifest with this number. This is the version after them.
fn open_units<D: Disk>(
    alloc: Global,
    disk: &mut D,
    number: u64,
    units: &[Unit<'_>],
    version: &Version,
) -> Result<Best, OpenErr>
    requires reads { All ReadsWhole units.now }
    requires version { version_after 1 (map meaning units.now) first_version ≡ Ok version.now }
    ensures best { IfSome (contents_told (D.told disk.old)) (λ d. AnswersBy best_of (best_from (get d) number (map meaning units.now)) result) }
    ensures faults { Counts (open_failed result) (D.faults disk.old) (D.faults disk.new) }
    ensures left { IsLeft (D.told disk.old) (D.told disk.new) }
{
    match whole_points(alloc, disk, units) {
        Ok(whole) => open_points(alloc, disk, number, units, version, whole),
        Err(why) => Err(why),
    }
}

/// The best points of units, and the tables that were read to find them.
#[derive(Debug, Drop)]
struct WholePoints {
    points: Seq<Point>,
    kept: KeptTables,
}

/// The best points of units that are applied.
fn whole_points<D: Disk>(
    alloc: Global,
    disk: &mut D,
    units: &[Unit<'_>],
) -> Result<WholePoints, OpenErr>
    requires reads { All ReadsWhole units.now }
    requires applies { IsOk (version_at (map meaning units.now) (length units.now)) }
    ensures points { IfOk result (λ whole. IfSome (contents_told (D.told disk.old)) (λ d. whole.points ≡ best_points (map meaning units.now) (all_pass (is_whole_in (get d)) (map meaning units.now)))) }
    ensures vector { IfOk result (λ whole. IsVector (map meaning units.now) whole.points) }
    ensures kept { IfOk result (λ whole. AreKept (contents_told (D.told disk.old)) whole.kept) }
    ensures cause { IfErr result IsCause }
    ensures faults { Counts (open_failed result) (D.faults disk.old) (D.faults disk.new) }
    ensures left { IsLeft (D.told disk.old) (D.told disk.new) }
{
    one_best_vector();
    answers_of_a_test();
    let Ok(files) = listed(alloc, units) else {
        return Err(OpenErr::Memory);
    };
    let TestedFiles { answers, kept } = test_files(alloc, disk, files.as_slice())?;
    match best_points(alloc, units, answers.as_slice()) {
        Ok(points) => Ok(WholePoints { points, kept }),
        Err(Memory) => Err(OpenErr::Memory),
    }
}

/// What units that are applied are opened to at these points. Tables that are kept aren't read again.
fn open_points<D: Disk>(
    alloc: Global,
    disk: &mut D,
    number: u64,
    units: &[Unit<'_>],
    version: &Version,
    whole: WholePoints,
) -> Result<Best, OpenErr>
    requires reads { All ReadsWhole units.now }
    requires version { version_after 1 (map meaning units.now) first_version ≡ Ok version.now }
    requires vector { IsVector (map meaning units.now) whole.points }
    requires kept { AreKept (contents_told (D.told disk.old)) whole.kept }
    ensures best { IfSome (contents_told (D.told disk.old)) (λ d. AnswersBy best_of (best_with (get d) number (map meaning units.now) whole.points) result) }
    ensures faults { Counts (open_failed result) (D.faults disk.old) (D.faults disk.new) }
    ensures left { IsLeft (D.told disk.old) (D.told disk.new) }
{
    let WholePoints { points, kept } = whole;
    let families = version.families.as_slice();
    let Ok(families) = placed(alloc, units, families, points.as_slice()) else {
        return Err(OpenErr::Memory);
    };
    match load(alloc, disk, families.as_slice(), kept) {
        Ok(state) => Ok(Best {
            state,
            manifest: number,
            units: units.len() as u64,
            points,
        }),
        Err(why) => Err(why),
    }
}

/// The state of families in rising id, with what their tables hold. Those that are kept aren't read again.
fn load<D: Disk>(
    alloc: Global,
    disk: &mut D,
    families: &[FamilyState],
    kept: KeptTables,
) -> Result<State, OpenErr>
    requires rising { Rises (λ live. live.id) families.now }
    requires bounds { HaveWholeBounds families.now }
    requires kept { AreKept (contents_told (D.told disk.old)) kept }
    ensures loaded { IfSome (contents_told (D.told disk.old)) (λ d. AnswersAs (λ tables state. state.state ≡ state_with (map family_line families.now) tables []) (collected (table_file (get d)) (listed_tables families.now)) result) }
    ensures faults { Counts (open_failed result) (D.faults disk.old) (D.faults disk.new) }
    ensures left { IsLeft (D.told disk.old) (D.told disk.new) }
{
    let mut state = State::new(alloc);
    match add_families(&mut state, families) {
        Ok(()) => load_tables(alloc, disk, families, kept, state),
        Err(Memory) => Err(OpenErr::Memory),
    }
}

/// A state of families alone, with what their tables hold.
fn load_tables<D: Disk>(
    alloc: Global,
    disk: &mut D,
    families: &[FamilyState],
    kept: KeptTables,
    state: State,
) -> Result<State, OpenErr>
    requires bounds { HaveWholeBounds families.now }
    requires kept { AreKept (contents_told (D.told disk.old)) kept }
    requires state { state.state ≡ state_with (map family_line families.now) [] [] }
    ensures loaded { IfSome (contents_told (D.told disk.old)) (λ d. AnswersAs (λ tables state. state.state ≡ state_with (map family_line families.now) tables []) (collected (table_file (get d)) (listed_tables families.now)) result) }
    ensures faults { Counts (open_failed result) (D.faults disk.old) (D.faults disk.new) }
    ensures left { IsLeft (D.told disk.old) (D.told disk.new) }
{
    let mut kept = kept;
    let mut state = state;
    let Ok(tables) = sorted_tables(alloc, families) else {
        return Err(OpenErr::Memory);
    };
    match add_each(alloc, disk, tables.as_slice(), &mut kept, &mut state) {
        Ok(_) => Ok(state),
        Err(why) => Err(why),
    }
}

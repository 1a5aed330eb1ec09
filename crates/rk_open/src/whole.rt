//! Which of the files that a manifest's units add are whole.
ghost use Rattle.std.specs.Prelude.{◌≡◌, ◌≤◌, ◌∷◌, ◌++◌, [], length, map, take, true, Err, IfErr, IfOk, IfSome, OnOk, Result};
ghost use Rattle.std.specs.List.{AllByRecursion};
ghost use Rattle.std.specs.FinMap.{get};
ghost use Rattle.rk_bytes.specs.declared.model.open.OpenErr.{OpenErr as Refusal};
ghost use Rattle.rk_bytes.specs.Model.BestEfforts.{can_be_used, is_whole_in};
ghost use Rattle.rk_bytes.specs.Model.DiskImages.{IsLeft, Counts, contents_told};
ghost use Rattle.rk_bytes.specs.Model.Opening.{Files, TableFile};
ghost use Rattle.rk_version.specs.Bounds.{HasWholeBounds};
ghost use Rattle.rk_open.specs.Answers.{IsCause, RefusesAs, open_failed};
ghost use Rattle.rk_open.specs.Reads.{AreKept};

use crate::OpenErr;
use crate::kept::{KeptTables, is_alike};
use crate::listed::ListedTable;
use crate::read::read_table;
use rk_bytes::Memory;
use rk_bytes::model::FileMeta;
use rk_disk::Disk;
use std::alloc::Global;
use std::collections::BTreeMap;

/// What the test of some files gives.
#[derive(Debug, Drop)]
pub(crate) struct TestedFiles {
    /// For each file whether it is whole.
    pub(crate) answers: Vec<bool>,
    /// Of each number the last table that was found whole, where it is supported.
    pub(crate) kept: KeptTables,
}

/// Whether each of the files is whole, and what the whole ones hold. One that is stated again as the last one with its
/// number was isn't read again. `DiskFault` comes where the disk fails, and `Memory` where memory runs out.
pub(crate) fn test_files<D: Disk>(
    alloc: Global,
    disk: &mut D,
    files: &[FileMeta],
) -> Result<TestedFiles, OpenErr>
    requires { AllByRecursion HasWholeBounds files.now }
    ensures answers { IfOk result (λ tested. IfSome (contents_told (D.told disk.old)) (λ d. tested.answers.items ≡ map (is_whole_in (get d)) files.now)) }
    ensures count { IfOk result (λ tested. length tested.answers.items ≡ length files.now) }
    ensures kept { IfOk result (λ tested. AreKept (contents_told (D.told disk.old)) tested.kept) }
    ensures cause { IfErr result IsCause }
    ensures faults { Counts (open_failed result) (D.faults disk.old) (D.faults disk.new) }
    ensures left { IsLeft (D.told disk.old) (D.told disk.new) }
{
    let mut tested = Tested::new(alloc);
    let mut kept = KeptTables::new(alloc);
    for file in files {
        let whole = answer_for(alloc, disk, files, &tested, file, &mut kept)?;
        if let Err(Memory) = tested.push(file.number, whole) {
            return Err(OpenErr::Memory);
        }
    }
    Ok(TestedFiles {
        answers: tested.into_answers(),
        kept,
    })
}

/// Whether the file is whole, of which the answers for the first of these files may tell. Where it is read and whole,
/// it is kept.
fn answer_for<D: Disk>(
    alloc: Global,
    disk: &mut D,
    files: &[FileMeta],
    tested: &Tested,
    file: &FileMeta,
    kept: &mut KeptTables,
) -> Result<bool, OpenErr>
    requires bounds { HasWholeBounds file.now }
    requires tested { IfSome (contents_told (D.told disk.old)) (λ d. tested.now.answers.items ≡ map (is_whole_in (get d)) (take (length tested.now.answers.items) files.now)) }
    requires kept { AreKept (contents_told (D.told disk.old)) kept.old }
    ensures whole { IfOk result (λ whole. IfSome (contents_told (D.told disk.old)) (λ d. whole ≡ is_whole_in (get d) file.now)) }
    ensures kept { OnOk result (AreKept (contents_told (D.told disk.old)) kept.new) }
    ensures cause { IfErr result IsCause }
    ensures faults { Counts (open_failed result) (D.faults disk.old) (D.faults disk.new) }
    ensures left { IsLeft (D.told disk.old) (D.told disk.new) }
{
    match tested.answer(files, file) {
        Some(whole) => Ok(whole),
        None => is_whole(alloc, disk, file, kept),
    }
}

/// The answers for the first of some files.
#[derive(Debug, Drop)]
struct Tested {
    answers: Vec<bool>,
    /// The place of the last file with a number.
    last: BTreeMap<u64, usize>,
}

impl Tested {
    /// No answers yet.
    fn new(alloc: Global) -> Tested
        ensures { result.answers.items ≡ [] }
    {
        Tested {
            answers: Vec::new(alloc),
            last: BTreeMap::new(alloc),
        }
    }

    /// The answer for the file, if the last one of these files with its number is stated alike.
    fn answer(&self, files: &[FileMeta], file: &FileMeta) -> Option<bool>
        ensures { (among : Files) → self.now.answers.items ≡ map (is_whole_in among) (take (length self.now.answers.items) files.now) → IfSome result (λ whole. whole ≡ is_whole_in among file.now) }
    {
        match self.last.get(&file.number) {
            Some(place) => self.answer_at(files, *place, file),
            None => None,
        }
    }

    /// The answer in the place, if the file there is stated alike.
    fn answer_at(&self, files: &[FileMeta], place: usize, file: &FileMeta) -> Option<bool>
        ensures { (among : Files) → self.now.answers.items ≡ map (is_whole_in among) (take (length self.now.answers.items) files.now) → IfSome result (λ whole. whole ≡ is_whole_in among file.now) }
    {
        if place >= files.len() || place >= self.answers.len() {
            return None;
        }
        if !is_alike(&files[place], file) {
            return None;
        }
        Some(self.answers[place])
    }

    /// Puts the answer for the next file, which has this number, behind the others.
    fn push(&mut self, number: u64, whole: bool) -> Result<(), Memory>
        ensures { OnOk result (self.new.answers.items ≡ self.old.answers.items ++ whole ∷ []) }
    {
        self.last.insert(number, self.answers.len())?;
        self.answers.push(whole)?;
        Ok(())
    }

    /// All answers.
    fn into_answers(self) -> Vec<bool>
        ensures { result.items ≡ self.answers.items }
    {
        let Tested { answers, .. } = self;
        answers
    }
}

/// Whether the file is there with the stated size and isn't damaged, and its records lie within the stated bounds. A
/// file that isn't supported counts too. What is read of a whole one is kept.
fn is_whole<D: Disk>(
    alloc: Global,
    disk: &mut D,
    file: &FileMeta,
    kept: &mut KeptTables,
) -> Result<bool, OpenErr>
    requires bounds { HasWholeBounds file.now }
    requires kept { AreKept (contents_told (D.told disk.old)) kept.old }
    ensures whole { IfOk result (λ whole. IfSome (contents_told (D.told disk.old)) (λ d. whole ≡ is_whole_in (get d) file.now)) }
    ensures kept { OnOk result (AreKept (contents_told (D.told disk.old)) kept.new) }
    ensures cause { IfErr result IsCause }
    ensures faults { Counts (open_failed result) (D.faults disk.old) (D.faults disk.new) }
    ensures left { IsLeft (D.told disk.old) (D.told disk.new) }
{
    match read_table(alloc, disk, &ListedTable { family: 0, file }) {
        Ok(table) => match kept.keep(alloc, file, table) {
            Ok(()) => Ok(true),
            Err(Memory) => Err(OpenErr::Memory),
        },
        Err(why) => can_be_used(why),
    }
}

/// Whether a table counts as whole that isn't read for this reason.
fn can_be_used(why: OpenErr) -> Result<bool, OpenErr>
    ensures used { (table : Result TableFile Refusal) → RefusesAs table why → IfOk result (λ used. used ≡ can_be_used table) }
    ensures cause { IfErr result IsCause }
    ensures faults { open_failed result ≡ open_failed {T = Unit {0}} (Err why) }
{
    match why {
        OpenErr::UnsupportedTable { .. } => Ok(true),
        OpenErr::DiskFault => Err(OpenErr::DiskFault),
        OpenErr::Memory => Err(OpenErr::Memory),
        _ => Ok(false),
    }
}

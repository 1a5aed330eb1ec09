ghost use Rattle.std.specs.Prelude.{◌≡◌, ◌++◌, ◌∷◌, [], drop, nat_lt, if◌then◌else◌, filter_map, IfOk};
ghost use Rattle.rk_bytes.specs.Model.VersionEdit.{deleted_in, added_in};
ghost use Rattle.rk_points.specs.Tallies.{without_all, with_all, with_answer, next_answer, answers_after, course_of, blank, Settles, counted};

use crate::broken::Broken;
use crate::course::{Course, Turn};
use rk_bytes::{Memory, Seq};
use rk_edit::{EditView, Field};
use std::alloc::Global;

/// What a family is while units are applied.
#[derive(Debug, Drop)]
pub(crate) struct Tally {
    pub family: u32,
    /// The turns before the last one.
    pub turns: Seq<Turn>,
    /// The last turn.
    pub now: Turn,
    /// The numbers of its files that aren't whole.
    pub broken: Broken,
}

impl Tally {
    /// The tally of a family that no edit spoke of.
    pub(crate) fn blank(alloc: Global, family: u32) -> Tally
        ensures { result ≡ blank family }
    {
        Tally {
            family,
            turns: Seq::new(alloc),
            now: Turn {
                at: 0,
                live: false,
                whole: true,
            },
            broken: Broken::new(alloc),
        }
    }

    /// With its files after an edit.
    pub(crate) fn count<'a>(
        self,
        alloc: Global,
        drops: bool,
        view: &EditView<'_>,
        answers: &'a [bool],
    ) -> Result<(Tally, &'a [bool]), Memory>
        ensures { IfOk result (λ done. (done.0 ≡ counted drops view.now answers.now self) × (done.1.now ≡ answers_after (filter_map added_in view.now) answers.now)) }
    {
        let mut tally = self;
        if drops {
            tally.broken = Broken::new(alloc);
            return Ok((tally, pass_over(answers, view.copy())));
        }
        remove_files(&mut tally.broken, view.copy());
        let left = add_files(&mut tally.broken, answers, view.copy())?;
        Ok((tally, left))
    }

    /// With a turn at so many units, unless its last turn tells the same.
    pub(crate) fn settle(self, at: u64, live: bool) -> Result<Tally, Memory>
        ensures { IfOk result (λ tally. Settles at live self tally) }
    {
        let whole = self.broken.is_empty();
        if self.now.live == live && self.now.whole == whole {
            return Ok(self);
        }
        self.turn(Turn { at, live, whole })
    }

    /// With one more turn, which takes the place of one at as many units.
    fn turn(self, turn: Turn) -> Result<Tally, Memory>
        ensures { IfOk result (λ tally. tally ≡ record self { turns = if nat_lt self.now.at turn.at then self.turns ++ self.now ∷ [] else self.turns; now = turn }) }
    {
        let mut tally = self;
        if tally.now.at < turn.at {
            tally.turns.push(tally.now)?;
        }
        tally.now = turn;
        Ok(tally)
    }

    /// The family's course.
    pub(crate) fn into_course(self) -> Result<Course, Memory>
        ensures { IfOk result (λ course. course ≡ course_of self) }
    {
        let Tally {
            family,
            mut turns,
            now,
            ..
        } = self;
        turns.push(now)?;
        Ok(Course { family, turns })
    }
}

/// Takes out the files that an edit deletes.
fn remove_files(broken: &mut Broken, mut view: EditView<'_>)
    ensures { broken.new ≡ without_all (filter_map deleted_in view.entry) broken.old }
{
    while let Some(field) = view.next_field() {
        if let Field::DeleteFile { number, .. } = field {
            broken.remove(number);
        }
    }
}

/// Puts in the files that an edit adds and that aren't whole, by the answers that come next. The other answers
/// are given.
fn add_files<'a>(
    broken: &mut Broken,
    answers: &'a [bool],
    mut view: EditView<'_>,
) -> Result<&'a [bool], Memory>
    ensures { IfOk result (λ left. (broken.new ≡ with_all (filter_map added_in view.entry) answers.now broken.old) × (left.now ≡ answers_after (filter_map added_in view.entry) answers.now)) }
{
    let mut left = answers;
    while let Some(field) = view.next_field() {
        if let Field::AddFile(file) = field {
            add_file(broken, file.number, next_answer(left))?;
            left = other_answers(left);
        }
    }
    Ok(left)
}

/// Puts in an added file, unless it is whole.
fn add_file(broken: &mut Broken, number: u64, whole: bool) -> Result<(), Memory>
    ensures { IfOk result (λ done. broken.new ≡ with_answer whole number broken.old) }
{
    if whole {
        return Ok(());
    }
    broken.add(number)
}

/// The answers behind those for the files that an edit adds.
fn pass_over<'a>(answers: &'a [bool], mut view: EditView<'_>) -> &'a [bool]
    ensures { result.now ≡ answers_after (filter_map added_in view.entry) answers.now }
{
    let mut left = answers;
    while let Some(field) = view.next_field() {
        if let Field::AddFile(_) = field {
            left = other_answers(left);
        }
    }
    left
}

/// The next answer, and false where there is none.
fn next_answer(answers: &[bool]) -> bool
    ensures { result ≡ next_answer answers.now }
{
    match answers {
        [told, ..] => *told,
        [] => false,
    }
}

/// The answers behind the next one.
fn other_answers(answers: &[bool]) -> &[bool]
    ensures { result.now ≡ drop 1 answers.now }
{
    match answers {
        [_, rest @ ..] => rest,
        [] => answers,
    }
}

// What is expected comes from the examples that stand with the definitions of best efforts.
ghost use Rattle.std.specs.Prelude.{map, length, IsOk, IfOk};
ghost use Rattle.std.specs.List.{All};
ghost use Rattle.rk_log.specs.Items.{piece_bytes};
ghost use Rattle.rk_bytes.specs.Model.VersionEdit.{edit_fields};
ghost use Rattle.rk_bytes.specs.Model.Manifest.{version_at};
ghost use Rattle.rk_version.specs.Units.{meaning};

use super::*;
use crate::course::{Course, Turn};
use crate::files::version_after;
use crate::groups::group_places;
use crate::walk::follow;
use rk_bytes::{Memory, Seq};
use rk_edit::EditView;
use rk_log::Piece;
use rk_version::{Unit, Version};
use std::alloc::Global;
use std::process::Abort;
use std::test::Fail;

// Tables of 9 bytes from a to b at level 0.
const TABLE_4: &[u8] = b"\x07\0\x04\x09\x09a\x01\x01\0\0\0\0\0\0\x09b\x01\x01\0\0\0\0\0\0";

const TABLE_5: &[u8] = b"\x07\0\x05\x09\x09a\x01\x01\0\0\0\0\0\0\x09b\x01\x01\0\0\0\0\0\0";

const TABLE_6: &[u8] = b"\x07\0\x06\x09\x09a\x01\x01\0\0\0\0\0\0\x09b\x01\x01\0\0\0\0\0\0";

const TABLE_7: &[u8] = b"\x07\0\x07\x09\x09a\x01\x01\0\0\0\0\0\0\x09b\x01\x01\0\0\0\0\0\0";

/// Table 7 goes and comes again.
const AGAIN_7: &[u8] =
    b"\x06\0\x07\x07\0\x07\x09\x09a\x01\x01\0\0\0\0\0\0\x09b\x01\x01\0\0\0\0\0\0";

/// Family 1 is added, and is dropped by an edit that adds table 7.
const FAMILY_1: &[u8] = b"\xC8\x01\x01\xC9\x01\x03one";

const DROP_1: &[u8] =
    b"\xC8\x01\x01\xCA\x01\x07\0\x07\x09\x09a\x01\x01\0\0\0\0\0\0\x09b\x01\x01\0\0\0\0\0\0";

/// Table 9 in family 1.
const TABLE_9_OF_1: &[u8] =
    b"\xC8\x01\x01\x07\0\x09\x09\x09a\x01\x01\0\0\0\0\0\0\x09b\x01\x01\0\0\0\0\0\0";

/// The unit of these edits, which have to read.
fn unit_of<'a>(alloc: Global, edits: &[&'a [u8]]) -> Result<Unit<'a>, Fail>
    ensures { IfOk result (λ unit. All (λ piece. IsOk (edit_fields (piece_bytes piece))) unit.pieces) }
{
    let mut pieces = Seq::new(alloc);
    for edit in edits {
        if EditView::read(edit).is_err() {
            return Err(Fail::new("an edit doesn't read"));
        }
        pieces.push(Piece::Whole(edit))?;
    }
    let group = edits.len() > 1;
    Ok(Unit { pieces, group })
}

/// The units of these edits, of which those with several edits are groups.
fn units_of<'a>(alloc: Global, units: &[&[&'a [u8]]]) -> Result<Seq<Unit<'a>>, Fail>
    ensures { IfOk result (λ units. All (λ unit. All (λ piece. IsOk (edit_fields (piece_bytes piece))) unit.pieces) units) }
{
    let mut all = Seq::new(alloc);
    for edits in units {
        all.push(unit_of(alloc, edits)?)?;
    }
    Ok(all)
}

/// Applies the units.
fn apply_all(alloc: Global, units: &[Unit<'_>]) -> Result<Version, Memory>
    requires { All (λ unit. All (λ piece. IsOk (edit_fields (piece_bytes piece))) unit.pieces) units.now }
    ensures { IfOk result (λ version. IsOk (version_at (map meaning units.now) (length units.now))) }
{
    version_after(alloc, units)
}

/// The courses by these answers, where the units are applied and there are as many answers as files.
fn courses_of(alloc: Global, units: &[Unit<'_>], whole: &[bool]) -> Result<Seq<Course>, Fail>
    requires { All (λ unit. All (λ piece. IsOk (edit_fields (piece_bytes piece))) unit.pieces) units.now }
{
    let _version = apply_all(alloc, units)?;
    let files = listed(alloc, units)?;
    if files.as_slice().len() != whole.len() {
        return Err(Fail::new("there are other files"));
    }
    Ok(follow(alloc, units, whole)?)
}

fn turn(at: u64, live: bool, whole: bool) -> Turn {
    Turn { at, live, whole }
}

/// The live families of these units are the first ones, with these turns.
fn assert_turns<R: Abort>(
    rt: &R,
    alloc: Global,
    units: &[&[&[u8]]],
    whole: &[bool],
    wanted: &[&[Turn]],
) -> Result<(), Fail> {
    let units = units_of(alloc, units)?;
    let courses = courses_of(alloc, units.as_slice(), whole)?;
    assert_eq!(rt; courses.as_slice().len(), wanted.len());
    for (i, (course, turns)) in courses.as_slice().iter().zip(wanted.iter()).enumerate() {
        assert_eq!(rt; course.family as usize, i);
        assert_eq!(rt; course.turns.as_slice(), *turns);
    }
    Ok(())
}

#[test]
fn a_family_is_whole_while_its_last_answers_say_so(rt: HostRuntime) -> Result<(), Fail> {
    let alloc = rt.alloc();
    let first = turn(0, true, true);
    let no_family = turn(0, false, true);
    assert_turns(
        &rt,
        alloc,
        &[&[TABLE_4], &[TABLE_6], &[TABLE_5]],
        &[true, false, false],
        &[&[first, turn(2, true, false)]],
    )?;
    assert_turns(
        &rt,
        alloc,
        &[&[FAMILY_1], &[b"", TABLE_9_OF_1], &[TABLE_5]],
        &[false, true],
        &[
            &[first],
            &[no_family, turn(1, true, true), turn(2, true, false)],
        ],
    )?;
    assert_turns(
        &rt,
        alloc,
        &[&[TABLE_4, FAMILY_1, TABLE_9_OF_1]],
        &[true, false],
        &[&[first], &[no_family, turn(1, true, false)]],
    )?;
    assert_turns(
        &rt,
        alloc,
        &[&[TABLE_7], &[AGAIN_7], &[FAMILY_1], &[DROP_1]],
        &[false, true, false],
        &[&[first, turn(1, true, false), turn(2, true, true)]],
    )
}

/// The numbers of the files, of which there are two.
fn numbers_of(files: &Seq<FileMeta>) -> Option<(u64, u64)> {
    match files.as_slice() {
        [first, second] => Some((first.number, second.number)),
        _ => None,
    }
}

/// The files at a point, where the units are applied.
fn files_of_point(alloc: Global, units: &[Unit<'_>], point: &Point) -> Result<Seq<FileMeta>, Fail>
    requires { All (λ unit. All (λ piece. IsOk (edit_fields (piece_bytes piece))) unit.pieces) units.now }
{
    let _version = apply_all(alloc, units)?;
    if point.at > units.len() as u64 {
        return Err(Fail::new("there are fewer units"));
    }
    Ok(files_at(alloc, units, point)?)
}

#[test]
fn groups_have_places_and_points_have_files(rt: HostRuntime) -> Result<(), Fail> {
    let alloc = rt.alloc();
    let units = units_of(
        alloc,
        &[
            &[TABLE_4],
            &[b"", TABLE_6],
            &[FAMILY_1],
            &[b"", TABLE_9_OF_1],
        ],
    )?;
    let units = units.as_slice();
    let places = group_places(alloc, units)?;
    assert_eq!(rt; places.as_slice(), [2, 4].as_slice());
    assert_eq!(rt; listed(alloc, units)?.as_slice().len(), 3);
    let at_two = Point { family: 0, at: 2 };
    let files = files_of_point(alloc, units, &at_two)?;
    assert_eq!(rt; numbers_of(&files), Some((4, 6)));
    let before = Point { family: 1, at: 3 };
    assert!(rt; files_of_point(alloc, units, &before)?.as_slice().is_empty());
    let after = Point { family: 1, at: 4 };
    assert_eq!(rt; files_of_point(alloc, units, &after)?.as_slice().len(), 1);
    Ok(())
}

/// How many files each of these points has, where the units are applied and there are at least four.
fn counts_at(alloc: Global, units: &[Unit<'_>], families: [u32; 4]) -> Result<[usize; 4], Fail>
    requires { All (λ unit. All (λ piece. IsOk (edit_fields (piece_bytes piece))) unit.pieces) units.now }
{
    let _version = apply_all(alloc, units)?;
    if units.len() < 4 {
        return Err(Fail::new("there are fewer units"));
    }
    let points = [
        Point {
            family: families[0],
            at: 4,
        },
        Point {
            family: families[1],
            at: 0,
        },
        Point {
            family: families[2],
            at: 2,
        },
        Point {
            family: families[3],
            at: 3,
        },
    ];
    let each = files_at_points(alloc, units, &points)?;
    match each.as_slice() {
        [a, b, c, d] => Ok([
            a.as_slice().len(),
            b.as_slice().len(),
            c.as_slice().len(),
            d.as_slice().len(),
        ]),
        _ => Err(Fail::new("there are other points")),
    }
}

#[test]
fn points_have_their_files_in_any_order(rt: HostRuntime) -> Result<(), Fail> {
    let alloc = rt.alloc();
    let units = units_of(
        alloc,
        &[
            &[TABLE_4],
            &[b"", TABLE_6],
            &[FAMILY_1],
            &[b"", TABLE_9_OF_1],
        ],
    )?;
    let units = units.as_slice();
    assert_eq!(rt; counts_at(alloc, units, [1, 0, 0, 1])?, [1, 0, 2, 0]);
    assert_eq!(rt; counts_at(alloc, units, [0, 1, 0, 0])?, [2, 0, 2, 2]);
    Ok(())
}

/// The best points by these answers, where the units are applied and there are as many answers as files.
fn best_of(alloc: Global, units: &[Unit<'_>], whole: &[bool]) -> Result<Seq<Point>, Fail>
    requires { All (λ unit. All (λ piece. IsOk (edit_fields (piece_bytes piece))) unit.pieces) units.now }
{
    let _version = apply_all(alloc, units)?;
    let files = listed(alloc, units)?;
    if files.as_slice().len() != whole.len() {
        return Err(Fail::new("there are other files"));
    }
    Ok(best_points(alloc, units, whole)?)
}

/// The best points of these units are these numbers of units, of the first families.
fn assert_best<R: Abort>(
    rt: &R,
    alloc: Global,
    units: &[&[&[u8]]],
    whole: &[bool],
    wanted: &[u64],
) -> Result<(), Fail> {
    let units = units_of(alloc, units)?;
    let points = best_of(alloc, units.as_slice(), whole)?;
    assert_eq!(rt; points.as_slice().len(), wanted.len());
    for (i, (point, at)) in points.as_slice().iter().zip(wanted.iter()).enumerate() {
        assert_eq!(rt; point.family as usize, i);
        assert_eq!(rt; point.at, *at);
    }
    Ok(())
}

#[test]
fn points_are_as_high_as_whole_files_and_groups_let_them(rt: HostRuntime) -> Result<(), Fail> {
    let alloc = rt.alloc();
    // A broken file stops its family, and units behind it don't count.
    let files: [&[&[u8]]; 4] = [&[b"\x02\x03"], &[TABLE_4], &[TABLE_6], &[TABLE_5]];
    assert_best(&rt, alloc, &files, &[true, false, false], &[2])?;
    // The second group isn't applied to family 1 alone, whose file is whole.
    let groups: [&[&[u8]]; 3] = [
        &[b"\x02\x03"],
        &[TABLE_4, FAMILY_1],
        &[TABLE_6, TABLE_9_OF_1],
    ];
    assert_best(&rt, alloc, &groups, &[true, false, true], &[2, 2])?;
    // A group that is left out of one family holds the other one before it, though its later file is whole.
    let later: [&[&[u8]]; 3] = [&[FAMILY_1], &[b"", TABLE_9_OF_1], &[TABLE_5]];
    assert_best(&rt, alloc, &later, &[false, true], &[1, 1])?;
    // A group ties no family that it adds.
    let added: [&[&[u8]]; 1] = [&[TABLE_4, FAMILY_1, TABLE_9_OF_1]];
    assert_best(&rt, alloc, &added, &[true, false], &[1, 0])
}

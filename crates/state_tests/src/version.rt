// What is expected is read off the rules for applying edits.
ghost use Rattle.std.specs.Prelude.{IsOk, IfOk};
ghost use Rattle.std.specs.List.{All};
ghost use Rattle.rk_log.specs.Items.{piece_bytes};
ghost use Rattle.rk_bytes.specs.Model.VersionEdit.{edit_fields};

use rk_bytes::Seq;
use rk_edit::EditView;
use rk_log::Piece;
use rk_version::*;
use std::alloc::Global;
use std::process::Abort;
use std::test::Fail;

// Table 7 from a to c at level 1, then others: their level, number and bounds follow.
const TABLE_7: &[u8] = b"\x07\x01\x07\x64\x09a\x01\x05\0\0\0\0\0\0\x09c\x01\x05\0\0\0\0\0\0";

const TABLE_8_B_TO_D: &[u8] = b"\x07\x01\x08\x64\x09b\x01\x05\0\0\0\0\0\0\x09d\x01\x05\0\0\0\0\0\0";

/// A unit of these edits, and what a builder answers to it.
#[derive(Clone, Copy)]
struct Step<'a> {
    edits: &'a [&'a [u8]],
    answer: Result<(), ApplyFault>,
}

/// A unit of these edits that is applied.
fn applied<'a>(edits: &'a [&'a [u8]]) -> Step<'a> {
    Step {
        edits,
        answer: Ok(()),
    }
}

/// The unit of these edits, which have to read.
fn unit_of<'a>(alloc: Global, edits: &[&'a [u8]]) -> Result<Unit<'a>, Fail>
    ensures { IfOk result (λ unit. All (λ piece. IsOk (edit_fields (piece_bytes piece))) unit.pieces) }
{
    let mut pieces = Seq::new(alloc);
    for edit in edits {
        if EditView::read(edit).is_err() {
            return Err(Fail::new("an edit doesn't read"));
        }
        pieces.push(Piece::Whole(edit))?;
    }
    let group = edits.len() > 1;
    Ok(Unit { pieces, group })
}

/// What the builder answers to a unit of these edits.
fn answer(
    builder: &mut VersionBuilder,
    alloc: Global,
    edits: &[&[u8]],
) -> Result<Result<(), ApplyFault>, Fail> {
    let unit = unit_of(alloc, edits)?;
    Ok(builder.apply(&unit))
}

/// Hands the units to the builder, which has to give these answers.
fn take_steps<R: Abort>(
    rt: &R,
    builder: &mut VersionBuilder,
    alloc: Global,
    steps: &[Step<'_>],
) -> Result<(), Fail> {
    for step in steps {
        assert_eq!(rt; answer(builder, alloc, step.edits)?, step.answer);
    }
    Ok(())
}

/// The version after these units, each of which has its answer.
fn version_after<R: Abort>(rt: &R, alloc: Global, steps: &[Step<'_>]) -> Result<Version, Fail> {
    let mut builder = VersionBuilder::new(alloc)?;
    take_steps(rt, &mut builder, alloc, steps)?;
    Ok(builder.into_version())
}

/// The level of a table in any family.
fn level_of(version: &Version, number: u64) -> Option<u32> {
    for live in version.families.as_slice() {
        for file in live.files.as_slice() {
            if file.number == number {
                return Some(file.level);
            }
        }
    }
    None
}

/// The log number of a family.
fn log_of(version: &Version, id: u32) -> Option<u64> {
    for live in version.families.as_slice() {
        if live.id == id {
            return Some(live.log);
        }
    }
    None
}

/// A unit of these edits that is refused.
fn refused<'a>(edits: &'a [&'a [u8]], fault: ApplyFault) -> Step<'a> {
    Step {
        edits,
        answer: Err(fault),
    }
}

#[test]
fn a_refusal_leaves_the_version(rt: HostRuntime) -> Result<(), Fail> {
    let overlap = ApplyFault::Overlap {
        family: 0,
        level: 1,
    };
    let steps = [
        applied(&[TABLE_7]),
        refused(
            &[b"\x02\x09", b"\x01\x01x\xC8\x01\x05"],
            ApplyFault::UnsupportedComparator,
        ),
        refused(
            &[b"\x02\x09", b"\xC9\x01\x01x"],
            ApplyFault::FamilyExists(0),
        ),
        refused(
            &[b"\x02\x09", b"\xC8\x01\x05"],
            ApplyFault::UnknownFamily(5),
        ),
        refused(&[b"\x02\x09", b"\x06\x02\x07"], ApplyFault::DeleteAbsent(7)),
        refused(&[b"\x02\x09", TABLE_7], ApplyFault::AddPresent(7)),
        refused(&[b"\x02\x09", TABLE_8_B_TO_D], overlap),
    ];
    let version = version_after(&rt, rt.alloc(), &steps)?;
    assert!(rt; !version.log_seen);
    assert_eq!(rt; level_of(&version, 7), Some(1));
    Ok(())
}

// A table of family 3, which is added, and the family's drop.
const FAMILY_3: &[u8] =
    b"\xC8\x01\x03\xC9\x01\x01x\x07\x05\x09\x64\x09a\x01\x05\0\0\0\0\0\0\x09c\x01\x05\0\0\0\0\0\0";

const DROP_3: &[u8] = b"\xC8\x01\x03\xCA\x01";

#[test]
fn a_table_moves(rt: HostRuntime) -> Result<(), Fail> {
    let moved = b"\x07\x02\x07\x64\x09a\x01\x05\0\0\0\0\0\0\x09c\x01\x05\0\0\0\0\0\0\x06\x01\x07";
    let moved: [&[u8]; 1] = [moved];
    let steps = [applied(&[TABLE_7]), applied(&moved), applied(&[FAMILY_3])];
    let version = version_after(&rt, rt.alloc(), &steps)?;
    assert_eq!(rt; level_of(&version, 7), Some(2));
    assert_eq!(rt; level_of(&version, 9), Some(5));
    Ok(())
}

#[test]
fn a_family_goes_with_its_tables(rt: HostRuntime) -> Result<(), Fail> {
    let steps = [
        applied(&[FAMILY_3]),
        applied(&[DROP_3, FAMILY_3]),
        applied(&[DROP_3]),
    ];
    let version = version_after(&rt, rt.alloc(), &steps)?;
    assert_eq!(rt; level_of(&version, 9), None);
    Ok(())
}

#[test]
fn tables_may_overlap_at_level_0(rt: HostRuntime) -> Result<(), Fail> {
    let level_0 =
        b"\x07\0\x01\x64\x09a\x01\x05\0\0\0\0\0\0\x09c\x01\x05\0\0\0\0\0\0\x07\0\x02\x64\x09b\x01\x05\0\0\0\0\0\0\x09d\x01\x05\0\0\0\0\0\0";
    let level_3 =
        b"\x07\x03\x03\x64\x09a\x01\x05\0\0\0\0\0\0\x09c\x01\x05\0\0\0\0\0\0\x07\x03\x04\x64\x09c\x01\x05\0\0\0\0\0\0\x09d\x01\x05\0\0\0\0\0\0";
    let fault = ApplyFault::Overlap {
        family: 0,
        level: 3,
    };
    let older =
        b"\x07\x03\x03\x64\x09a\x01\x05\0\0\0\0\0\0\x09c\x01\x05\0\0\0\0\0\0\x07\x03\x04\x64\x09c\x01\x04\0\0\0\0\0\0\x09d\x01\x05\0\0\0\0\0\0";
    let (level_0, level_3, older): ([&[u8]; 1], [&[u8]; 1], [&[u8]; 1]) = (
        [level_0],
        [level_3],
        [older],
    );
    let steps = [applied(&level_0), refused(&level_3, fault), applied(&older)];
    let version = version_after(&rt, rt.alloc(), &steps)?;
    assert_eq!(rt; level_of(&version, 4), Some(3));
    Ok(())
}

#[test]
fn numbers_and_logs_count(rt: HostRuntime) -> Result<(), Fail> {
    let steps = [applied(&[
        b"\x02\x09\x03\x0A\x04\x05\x0A\x03\xCB\x01\x06",
        b"\x02\x07\x03\x0B",
        b"\x87\x40\x02\x05\x01\x87\x40\x04\x05\x02\x30\x01\x87\x40\x02\x02\x01\x87\x40\x02\x05\x01\x88\x40\x01\x04",
    ])];
    let version = version_after(&rt, rt.alloc(), &steps)?;
    assert_eq!(rt; log_of(&version, 0), Some(9));
    assert_eq!(rt; version.next_file, Some(11));
    assert_eq!(rt; version.last_sequence, Some(5));
    assert_eq!(rt; version.greatest_family, 6);
    assert_eq!(rt; first_log(&version), 9);
    let tracked = Tracked {
        log: 5,
        synced: Some(48),
    };
    assert_eq!(rt; version.wals.as_slice(), [tracked].as_slice());
    Ok(())
}

/// The version has what the manifest of a new database states, and no table.
fn assert_new_database<R: Abort>(rt: &R, version: &Version) {
    assert_eq!(rt; version.next_file, Some(4));
    assert_eq!(rt; version.last_sequence, Some(0));
    assert_eq!(rt; log_of(version, 0), Some(3));
    assert_eq!(rt; log_of(version, 3), None);
    assert_eq!(rt; level_of(version, 4), None);
    assert!(rt; version.wals.as_slice().is_empty());
}

/// Applies the unit of these edits to the builder, and takes it back.
fn take_back(builder: &mut VersionBuilder, alloc: Global, edits: &[&[u8]]) -> Result<(), Fail> {
    let unit = unit_of(alloc, edits)?;
    match builder.apply_undo(&unit) {
        Ok(undo) => match builder.undo(undo) {
            Ok(()) => Ok(()),
            Err(_) => Err(Fail::new("the unit isn't taken back")),
        },
        Err(_) => Err(Fail::new("the unit isn't applied")),
    }
}

#[test]
fn units_are_taken_back(rt: HostRuntime) -> Result<(), Fail> {
    let alloc = rt.alloc();
    let mut builder = VersionBuilder::new(alloc)?;
    let first = b"\x01\x1aleveldb.BytewiseComparator\x02\x03\x03\x04\x04\0";
    take_steps(&rt, &mut builder, alloc, &[applied(&[first])])?;
    let table_4 =
        b"\x02\x09\x03\x0A\x04\x05\x07\0\x04\x64\x09a\x01\x05\0\0\0\0\0\0\x09c\x01\x05\0\0\0\0\0\0";
    let family_3 =
        b"\xC8\x01\x03\xC9\x01\x01x\x07\0\x04\x64\x09a\x01\x05\0\0\0\0\0\0\x09c\x01\x05\0\0\0\0\0\0";
    let logs = b"\x87\x40\x02\x05\x01\x88\x40\x01\x04";
    for edit in [table_4.as_slice(), family_3, logs] {
        take_back(&mut builder, alloc, &[edit])?;
        assert_new_database(&rt, builder.version());
    }
    Ok(())
}

#[test]
fn a_dropped_family_and_a_deleted_table_come_back(rt: HostRuntime) -> Result<(), Fail> {
    let alloc = rt.alloc();
    let mut builder = VersionBuilder::new(alloc)?;
    take_steps(&rt, &mut builder, alloc, &[applied(&[TABLE_7, FAMILY_3])])?;
    take_back(&mut builder, alloc, &[b"\x06\x01\x07", DROP_3])?;
    assert_eq!(rt; level_of(builder.version(), 7), Some(1));
    assert_eq!(rt; level_of(builder.version(), 9), Some(5));
    Ok(())
}

//! Families of a few turns. The points were found by trying all of them.
use super::*;
use rk_bytes::Seq;
use std::process::Abort;
use std::test::Fail;

/// From so many units on, a family is live or not, and whole or not.
type Stretch = (u64, bool, bool);

fn course(alloc: Global, family: u32, stretches: &[Stretch]) -> Result<Course, Memory> {
    let mut turns = Seq::new(alloc);
    for (at, live, whole) in stretches {
        turns.push(Turn {
            at: *at,
            live: *live,
            whole: *whole,
        })?;
    }
    Ok(Course { family, turns })
}

/// The families 0 and 1 with these stretches, the groups at these places and so many units have these points.
fn assert_points<R: Abort>(
    rt: &R,
    alloc: Global,
    families: (&[Stretch], &[Stretch]),
    groups: &[u64],
    count: u64,
    want: (u64, u64),
) -> Result<(), Fail> {
    let courses = [course(alloc, 0, families.0)?, course(alloc, 1, families.1)?];
    let points = descend(alloc, &courses, groups, count)?;
    let points = points.as_slice();
    assert_eq!(rt; points.len(), 2);
    assert_eq!(rt; (points[0].family, points[0].at), (0, want.0));
    assert_eq!(rt; (points[1].family, points[1].at), (1, want.1));
    Ok(())
}

const WHOLE: &[Stretch] = &[(0, true, true)];

const BROKEN_AT_3: &[Stretch] = &[(0, true, true), (3, true, false)];

const BROKEN_AT_6: &[Stretch] = &[(0, true, true), (6, true, false)];

const BROKEN_FROM_3_TO_5: &[Stretch] = &[(0, true, true), (3, true, false), (6, true, true)];

const ADDED_AT_1: &[Stretch] = &[(1, true, true), (2, true, false)];

const ADDED_AT_2: &[Stretch] = &[(2, true, true)];

const ADDED_BROKEN: &[Stretch] = &[(1, true, false)];

#[test]
fn families_come_down_together(rt: HostRuntime) -> Result<(), Fail> {
    let alloc = rt.alloc();
    // A file of the third unit is broken, and no group ties the families.
    assert_points(&rt, alloc, (BROKEN_AT_3, WHOLE), &[], 4, (2, 4))?;
    // The second family is added by the first group, and the second group isn't applied to it alone.
    assert_points(&rt, alloc, (BROKEN_AT_3, ADDED_AT_2), &[2, 3], 3, (2, 2))?;
    // A group that is left out of the second family holds the first one before it.
    assert_points(&rt, alloc, (WHOLE, ADDED_AT_1), &[2], 3, (1, 1))?;
    // A group ties no family that it adds.
    assert_points(&rt, alloc, (WHOLE, ADDED_BROKEN), &[1], 1, (1, 0))?;
    // The first family, held before the last group, is whole only before the first one.
    assert_points(
        &rt,
        alloc,
        (BROKEN_FROM_3_TO_5, BROKEN_AT_6),
        &[4, 6],
        7,
        (2, 3),
    )
}

// What is expected is read off the rule for range deletions.
ghost use Rattle.std.specs.Prelude.{◌≤◌, length, IfOk};
ghost use Rattle.rk_tomb.specs.Bounds.{HasWholeBounds};

use rk_bytes::{Bytes, Memory};
use rk_ikey::{Kind, TOP};
use rk_tomb::*;
use std::alloc::Global;
use std::test::Fail;

// Bounds of tables: internal keys of range deletions, and of puts.
const RANGE_B_AT_10: [u8; 9] = [b'b', 15, 10, 0, 0, 0, 0, 0, 0];

const RANGE_C_AT_TOP: [u8; 9] = [b'c', 15, 255, 255, 255, 255, 255, 255, 255];

const PUT_B_AT_5: [u8; 9] = [b'b', 1, 5, 0, 0, 0, 0, 0, 0];

const PUT_B_AT_3: [u8; 9] = [b'b', 1, 3, 0, 0, 0, 0, 0, 0];

/// The bounds of a table.
fn bounds(alloc: Global, smallest: &[u8], largest: &[u8]) -> Result<Option<Cut>, Memory>
    requires smallest { 8 ≤ length smallest.now }
    requires largest { 8 ≤ length largest.now }
    ensures { IfOk result HasWholeBounds }
{
    Ok(Some(Cut {
        smallest: Bytes::copy_of(alloc, smallest)?,
        largest: Bytes::copy_of(alloc, largest)?,
    }))
}

/// Adds a range deletion of a family, from a key up to another, at a sequence number.
fn add(
    set: &mut TombSet,
    alloc: Global,
    family: u32,
    start: &[u8],
    end: &[u8],
    sequence: u64,
    cut: Option<Cut>,
) -> Result<(), Memory>
    requires { HasWholeBounds cut }
{
    set.add(Tomb {
        family,
        start: Bytes::copy_of(alloc, start)?,
        end: Bytes::copy_of(alloc, end)?,
        sequence,
        cut,
    })
}

#[test]
fn a_table_ends_before_a_key(rt: HostRuntime) -> Result<(), Fail> {
    let alloc = rt.alloc();
    let mut set = TombSet::new(alloc);
    let cut = bounds(alloc, &RANGE_B_AT_10, &RANGE_C_AT_TOP)?;
    add(&mut set, alloc, 0, b"b", b"d", 10, cut)?;
    assert_eq!(rt; set.covering(0, b"b", 9, Kind::Value), Some(10));
    assert_eq!(rt; set.covering(0, b"c", 0, Kind::Value), None);
    Ok(())
}

#[test]
fn what_covers_is_of_the_family_the_range_and_the_bounds(rt: HostRuntime) -> Result<(), Fail> {
    let alloc = rt.alloc();
    let mut set = TombSet::new(alloc);
    add(&mut set, alloc, 0, b"b", b"d", 7, None)?;
    add(&mut set, alloc, 0, b"c", b"c\0", 9, None)?;
    let cut = bounds(alloc, &PUT_B_AT_5, &PUT_B_AT_3)?;
    add(&mut set, alloc, 1, b"a", b"z", 20, cut)?;
    // These two are the wrong way round, and cover nothing.
    add(&mut set, alloc, 0, b"d", b"b", 30, None)?;
    let turned = bounds(alloc, &PUT_B_AT_3, &PUT_B_AT_5)?;
    add(&mut set, alloc, 1, b"a", b"z", 40, turned)?;
    let rows: [(u32, &[u8], u64, Kind, Option<u64>); 14] = [
        (0, b"a", 0, Kind::Value, None),
        (0, b"b", 6, Kind::Value, Some(7)),
        (0, b"b", 7, Kind::Value, None),
        (0, b"bb", 0, Kind::Merge, Some(7)),
        (0, b"c", 0, Kind::Deletion, Some(9)),
        (0, b"c", 8, Kind::Value, Some(9)),
        (0, b"c\0", 0, Kind::Value, Some(7)),
        (0, b"d", 0, Kind::Value, None),
        (1, b"b", 6, Kind::Value, None),
        (1, b"b", 5, Kind::Value, Some(20)),
        (1, b"b", 3, Kind::Value, Some(20)),
        (1, b"b", 3, Kind::Deletion, None),
        (1, b"b", 2, Kind::Value, None),
        (2, b"b", 4, Kind::Value, None),
    ];
    for (family, user, sequence, kind, newest) in &rows {
        assert!(rt; *sequence <= TOP);
        assert_eq!(rt; set.covering(*family, user, *sequence, *kind), *newest);
    }
    Ok(())
}

// The range deletion with the number n, below 60, is of the keys from n up to n + 8, at 100 + n. They are
// added in the order of the multiples of 7.
#[test]
fn many_are_added_in_any_order(rt: HostRuntime) -> Result<(), Fail> {
    let alloc = rt.alloc();
    let mut set = TombSet::new(alloc);
    for step in 0..60u16 {
        let n = (step * 7 % 60) as u8;
        add(&mut set, alloc, 3, &[n], &[n + 8], 100 + u64::from(n), None)?;
    }
    for key in 0..60u8 {
        let newest = Some(100 + u64::from(key));
        assert_eq!(rt; set.covering(3, &[key], 0, Kind::Value), newest);
        assert_eq!(rt;
            set.covering(3, &[key, 0], 99 + u64::from(key), Kind::Value),
            newest
        );
        assert_eq!(rt; set.covering(3, &[key], TOP, Kind::Value), None);
    }
    assert_eq!(rt; set.covering(3, &[66], 0, Kind::Value), Some(159));
    assert_eq!(rt; set.covering(3, &[67], 0, Kind::Value), None);
    Ok(())
}

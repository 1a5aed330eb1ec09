// What is expected is read off the rules for the view of a key.
ghost use Rattle.std.specs.Prelude.{◌≡◌, ◌<◌, ◌≤◌, [], ◌∷◌, length, IfOk};
ghost use Rattle.std.specs.List.{All};
ghost use Rattle.rk_tomb.specs.Bounds.{HasWholeBounds};
ghost use Rattle.rk_view.specs.Kept.{IsTableRun};

use super::*;
use rk_bytes::{Bytes, Memory, Seq};
use rk_ikey::TOP;
use std::alloc::Global;
use std::process::Abort;
use std::test::Fail;

// Bounds of a table: internal keys of the range deletion of `b` at 10, and of the put of `c` at 5.
const RANGE_B_AT_10: [u8; 9] = [b'b', 15, 10, 0, 0, 0, 0, 0, 0];

const PUT_C_AT_5: [u8; 9] = [b'c', 1, 5, 0, 0, 0, 0, 0, 0];

/// A record of the default family.
fn made(
    alloc: Global,
    key: &[u8],
    sequence: u64,
    kind: Kind,
    value: &[u8],
) -> Result<Record, Memory>
    ensures { IfOk result (λ made. made ≡ record { family = 0; key = key.now; sequence = sequence; kind = kind; value = value.now }) }
{
    Ok(Record {
        family: 0,
        key: Bytes::copy_of(alloc, key)?,
        sequence,
        kind,
        value: Bytes::copy_of(alloc, value)?,
    })
}

/// A state with these records of the default family, added in this order.
fn state_of(alloc: Global, records: &[(&[u8], u64, Kind, &[u8])]) -> Result<State, Fail> {
    let mut state = State::new(alloc);
    for (key, sequence, kind, value) in records {
        let added = made(alloc, key, *sequence, *kind, value)?;
        if added.sequence <= TOP {
            state.add_record(added, None)?;
        }
    }
    Ok(state)
}

/// The bounds of a table.
fn bounds(alloc: Global, smallest: &[u8], largest: &[u8]) -> Result<Option<Cut>, Memory>
    requires smallest { 8 ≤ length smallest.now }
    requires largest { 8 ≤ length largest.now }
    ensures { IfOk result HasWholeBounds }
{
    Ok(Some(Cut {
        smallest: Bytes::copy_of(alloc, smallest)?,
        largest: Bytes::copy_of(alloc, largest)?,
    }))
}

/// The value that is found, if one is.
fn value_of<'a>(answer: &Answer<'a>) -> Option<&'a [u8]> {
    match answer {
        Answer::Found(value) => Some(*value),
        _ => None,
    }
}

/// The answer is these operands and this base.
fn assert_merge<R: Abort>(
    rt: &R,
    answer: &Answer<'_>,
    operands: &[&[u8]],
    base: Option<&[u8]>,
) -> Result<(), Fail> {
    let Answer::Merge(shown) = answer else {
        return Err(Fail::new("nothing to merge"));
    };
    let newest_first = shown.newest_first.as_slice();
    assert_eq!(rt; newest_first.len(), operands.len());
    for (operand, wanted) in newest_first.iter().zip(operands) {
        assert_eq!(rt; operand.as_slice(), *wanted);
    }
    match &shown.base {
        Some(found) => assert_eq!(rt; Some(found.as_slice()), base),
        None => assert!(rt; base.is_none()),
    }
    Ok(())
}

/// What is left of the walk is found under these keys.
fn assert_rows<R: Abort>(
    rt: &R,
    mut walk: ViewIter<'_>,
    rows: &[(&[u8], &[u8])],
) -> Result<(), Fail> {
    for (key, value) in rows {
        let Some(row) = walk.next_row()? else {
            return Err(Fail::new("a row is missing"));
        };
        assert_eq!(rt; row.key, *key);
        assert_eq!(rt; value_of(&row.answer), Some(*value));
    }
    assert!(rt; walk.next_row()?.is_none());
    Ok(())
}

#[test]
fn merges_show_their_operands(rt: HostRuntime) -> Result<(), Fail> {
    let alloc = rt.alloc();
    let records: [(&[u8], u64, Kind, &[u8]); 6] = [
        (b"k", 1, Kind::Value, b"x"),
        (b"k", 2, Kind::Merge, b"y"),
        (b"k", 3, Kind::Merge, b"z"),
        (b"m", 4, Kind::Value, b"v"),
        (b"m", 5, Kind::Deletion, b""),
        (b"m", 6, Kind::Merge, b"w"),
    ];
    let state = state_of(alloc, &records)?;
    assert_merge(
        &rt,
        &view_get(alloc, &state, 0, b"k")?,
        &[b"z", b"y"],
        Some(b"x"),
    )?;
    assert_merge(&rt, &view_get(alloc, &state, 0, b"m")?, &[b"w"], None)?;
    let deciding = view_records(alloc, &state, 0, b"k")?;
    assert_values(&rt, deciding.as_slice(), &[b"z", b"y", b"x"]);
    Ok(())
}

/// The records have these values.
fn assert_values<R: Abort>(rt: &R, records: &[Record], values: &[&[u8]]) {
    assert_eq!(rt; records.len(), values.len());
    for (found, wanted) in records.iter().zip(values) {
        assert_eq!(rt; found.value.as_slice(), *wanted);
    }
}

// A put at each place, and whether it is shown beside the range deletion of `b` to `d` at 10, which is cut
// after the put of `c` at 5.
#[test]
fn a_range_deletion_acts_within_its_bounds(rt: HostRuntime) -> Result<(), Fail> {
    let alloc = rt.alloc();
    let rows: [(&[u8], u64, bool); 8] = [
        (b"a", 1, true),
        (b"b", 9, false),
        (b"b", 10, true),
        (b"bb", 1, false),
        (b"c", 6, false),
        (b"c", 5, false),
        (b"c", 4, true),
        (b"d", 1, true),
    ];
    for (key, sequence, shown) in &rows {
        assert_eq!(rt; is_shown_beside(alloc, key, *sequence)?, *shown);
    }
    Ok(())
}

/// Whether a put is shown beside the range deletion.
fn is_shown_beside(alloc: Global, key: &[u8], sequence: u64) -> Result<bool, Fail> {
    let mut state = state_of(alloc, &[(key, sequence, Kind::Value, b"v")])?;
    let range = made(alloc, b"b", 10, Kind::RangeDeletion, b"d")?;
    state.add_record(range, bounds(alloc, &RANGE_B_AT_10, &PUT_C_AT_5)?)?;
    Ok(value_of(&view_get(alloc, &state, 0, key)?).is_some())
}

#[test]
fn a_walk_shows_the_newest_of_each_key(rt: HostRuntime) -> Result<(), Fail> {
    let alloc = rt.alloc();
    let records: [(&[u8], u64, Kind, &[u8]); 7] = [
        (b"b", 2, Kind::Value, b"2"),
        (b"b", 2, Kind::Deletion, b""),
        (b"c", 3, Kind::SingleDeletion, b""),
        (b"c", 1, Kind::Value, b"1"),
        (b"a", 4, Kind::Value, b"3"),
        (b"a", 4, Kind::Value, b"4"),
        (b"d", 5, Kind::Value, b"5"),
    ];
    let state = state_of(alloc, &records)?;
    assert_eq!(rt; state.count(), 6);
    let all: [(&[u8], &[u8]); 3] = [(b"a", b"4"), (b"b", b"2"), (b"d", b"5")];
    assert_rows(&rt, view_iter(alloc, &state, 0, None, None), &all)?;
    assert_rows(
        &rt,
        view_iter(alloc, &state, 0, Some(b"b"), Some(b"d")),
        &all[1..2],
    )?;
    assert_rows(&rt, view_iter(alloc, &state, 1, None, None), &[])
}

#[test]
fn a_later_run_takes_the_place_of_an_earlier_one(rt: HostRuntime) -> Result<(), Fail> {
    let alloc = rt.alloc();
    let mut state = state_of(alloc, &[(b"a", 1, Kind::Value, b"old")])?;
    state.reserve_runs(2)?;
    state.add_run(two(alloc, b'a', b'b', b"one")?);
    state.add_run(two(alloc, b'a', b'b', b"two")?);
    assert_eq!(rt; state.runs().len(), 3);
    let rows: [(&[u8], &[u8]); 2] = [(b"a", b"two"), (b"b", b"two")];
    assert_rows(&rt, view_iter(alloc, &state, 0, None, None), &rows)?;
    // Runs become one where there are to be many more.
    state.reserve_runs(30)?;
    assert_eq!(rt; state.runs().len(), 1);
    assert_eq!(rt; state.count(), 2);
    assert_rows(&rt, view_iter(alloc, &state, 0, None, None), &rows)
}

#[test]
fn a_run_takes_lists_into_its_gaps(rt: HostRuntime) -> Result<(), Fail> {
    let alloc = rt.alloc();
    let mut state = State::new(alloc);
    state.reserve_runs(3)?;
    state.add_run(two(alloc, b'a', b'b', b"1")?);
    state.add_run(two(alloc, b'e', b'f', b"3")?);
    state.add_run(two(alloc, b'c', b'd', b"2")?);
    assert_eq!(rt; state.runs().len(), 1);
    assert_eq!(rt; state.count(), 6);
    let rows: [(&[u8], &[u8]); 3] = [(b"b", b"1"), (b"c", b"2"), (b"d", b"2")];
    assert_rows(
        &rt,
        view_iter(alloc, &state, 0, Some(b"b"), Some(b"e")),
        &rows,
    )
}

/// Puts of two keys at 1, as a table has them.
fn two(alloc: Global, first: u8, second: u8, value: &[u8]) -> Result<Seq<Record>, Memory>
    requires { first < second }
    ensures { IfOk result IsTableRun }
{
    let first = made(alloc, &[first], 1, Kind::Value, value)?;
    let second = made(alloc, &[second], 1, Kind::Value, value)?;
    let mut records = Seq::new(alloc);
    records.push(first)?;
    records.push(second)?;
    Ok(records)
}

#[test]
fn the_last_of_several_records_counts(rt: HostRuntime) -> Result<(), Fail> {
    let alloc = rt.alloc();
    let mut state = State::new(alloc);
    state.add_records(replayed(alloc)?)?;
    assert_eq!(rt; state.count(), 3);
    let rows: [(&[u8], &[u8]); 1] = [(b"a", b"last")];
    assert_rows(&rt, view_iter(alloc, &state, 0, None, None), &rows)
}

/// Two puts of `a` at 1, one of `b`, and the range deletion of `b` to `d` at 3.
fn replayed(alloc: Global) -> Result<Seq<Record>, Memory>
    ensures { IfOk result (λ records. All (λ r. r.sequence ≤ TOP) records) }
{
    let first = made(alloc, b"a", 1, Kind::Value, b"first")?;
    let other = made(alloc, b"b", 2, Kind::Value, b"other")?;
    let last = made(alloc, b"a", 1, Kind::Value, b"last")?;
    let range = made(alloc, b"b", 3, Kind::RangeDeletion, b"d")?;
    let mut records = Seq::new(alloc);
    records.push(first)?;
    records.push(other)?;
    records.push(last)?;
    records.push(range)?;
    Ok(records)
}

#[test]
fn families_stand_in_rising_id(rt: HostRuntime) -> Result<(), Fail> {
    let mut state = State::new(rt.alloc());
    assert_eq!(rt; state.add_family(9, b"x", 3, 1), Ok(()));
    assert_eq!(rt; state.add_family(7, b"x", 3, 1), Ok(()));
    assert_eq!(rt; state.add_family(7, b"y", 3, 1), Err(StateErr::Present));
    match state.families().first() {
        Some(line) => assert_eq!(rt; line.id, 7),
        None => return Err(Fail::new("no family")),
    }
    assert_eq!(rt; state.family_named(b"x"), Some(7));
    assert_eq!(rt; state.family_named(b"y"), None);
    Ok(())
}

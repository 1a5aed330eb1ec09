//! The range deletions of a table, cut to the bounds that are stated for its file.
ghost use Rattle.std.specs.Prelude.{◌≡◌, ◌≤◌, ℕ, max, map, fold, Some, OnOk, IfOk};
ghost use Rattle.rk_bytes.specs.Model.KeyView.{tomb_of};
ghost use Rattle.rk_bytes.specs.Model.Opening.{range_record};
ghost use Rattle.rk_table.specs.Steps.{AreBelowTop};
ghost use Rattle.rk_version.specs.Bounds.{HasWholeBounds};
ghost use Rattle.rk_view.specs.Kept.{with_record};
ghost use Rattle.rk_open.specs.Tables.{listed_of, Adds, bounds_of, cut_ranges};

use crate::listed::ListedTable;
use rk_bytes::model::RangeDel;
use rk_bytes::{Bytes, Memory};
use rk_ikey::{Kind, Record, TOP};
use rk_tomb::Cut;
use rk_view::State;
use std::alloc::Global;

/// Adds the range deletions of a table to a state.
pub(crate) fn add_ranges(
    alloc: Global,
    listed: &ListedTable<'_>,
    ranges: &[RangeDel],
    state: &mut State,
) -> Result<(), Memory>
    requires bounds { HasWholeBounds listed.now.file.now }
    requires sequences { AreBelowTop ranges.now }
    ensures { OnOk result (Adds (map (range_record listed.now.family) ranges.now) (cut_ranges (listed_of listed.now) ranges.now) state.old.state state.new.state) }
{
    for range in ranges {
        add_range(alloc, listed, range, state)?;
    }
    Ok(())
}

/// Adds one range deletion of a table to a state.
fn add_range(
    alloc: Global,
    listed: &ListedTable<'_>,
    range: &RangeDel,
    state: &mut State,
) -> Result<(), Memory>
    requires bounds { HasWholeBounds listed.now.file.now }
    requires sequence { range.now.sequence ≤ TOP }
    ensures { OnOk result (state.new.state ≡ with_record (bounds_of (listed_of listed.now)) (range_record listed.now.family range.now) state.old.state) }
{
    let record = Record {
        family: listed.family,
        key: Bytes::copy_of(alloc, range.start.as_slice())?,
        sequence: range.sequence,
        kind: Kind::RangeDeletion,
        value: Bytes::copy_of(alloc, range.end.as_slice())?,
    };
    let cut = Cut {
        smallest: Bytes::copy_of(alloc, listed.file.smallest.as_slice())?,
        largest: Bytes::copy_of(alloc, listed.file.largest.as_slice())?,
    };
    state.add_record(record, Some(cut))
}

/// The greatest of a number and the sequence numbers of the range deletions.
pub(crate) fn greatest_with(top: u64, ranges: &[RangeDel]) -> u64
    ensures { result ≡ fold max top (map (λ range. range.sequence) ranges.now) }
{
    let mut top = top;
    for range in ranges {
        top = top.max(range.sequence);
    }
    top
}

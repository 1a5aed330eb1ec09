//! Of how many keys a state shows something.
ghost use Rattle.std.specs.Prelude.{◌≡◌, ◌-◌, ◌^◌, IfOk, None, length, min};
ghost use Rattle.rk_bytes.specs.Model.KeyView.{key_count, rows};

use rk_bytes::Memory;
use rk_view::{State, ViewIter, view_iter};
use std::alloc::Global;

/// Of how many keys of all families something is shown, at most 2^64 - 1. `Memory` comes only where memory runs
/// out.
pub(crate) fn key_count(alloc: Global, state: &State) -> Result<u64, Memory>
    ensures { IfOk result (λ count. count ≡ key_count state.now.state) }
{
    let mut count: u64 = 0;
    for line in state.families() {
        let more = row_count(alloc, state, line.id)?;
        count = count.saturating_add(more);
    }
    Ok(count)
}

/// How many rows the family with this id has, at most 2^64 - 1.
fn row_count(alloc: Global, state: &State, id: u32) -> Result<u64, Memory>
    ensures { IfOk result (λ count. count ≡ min (length (rows state.now.state id None None)) (2 ^ 64 - 1)) }
{
    let mut rows = view_iter(alloc, state, id, None, None);
    left_count(&mut rows)
}

/// How many rows are left, at most 2^64 - 1.
fn left_count(rows: &mut ViewIter<'_>) -> Result<u64, Memory>
    ensures { IfOk result (λ count. count ≡ min (length rows.old) (2 ^ 64 - 1)) }
{
    let mut count: u64 = 0;
    while let Some(_row) = rows.next_row()? {
        count = count.saturating_add(1);
    }
    Ok(count)
}

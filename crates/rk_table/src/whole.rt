//! The status of a table that is in memory as a whole.
ghost use Rattle.std.specs.Prelude.{◌≡◌, ◌<◌, ℕ, List, take, IfOk, OnOk};
ghost use Rattle.rk_table.specs.Steps.{IsSoundStatus};
ghost use Rattle.rk_table.specs.Runs.{want_of, left, Follows, IsStatus};

use crate::front::front;
use crate::{Handle, Status, StatusRun, SumKind, Want};
use rk_bytes::Memory;
use rk_meta::checked_block;
use std::alloc::Global;

/// The status of a table's bytes. `Memory` comes only where memory runs out.
pub fn table_status(alloc: Global, bytes: &[u8]) -> Result<Status, Memory>
    ensures status { IfOk result (λ status. IsStatus status bytes.now) }
    ensures top { IfOk result IsSoundStatus }
{
    let mut run = StatusRun::new(alloc, bytes.len() as u64);
    loop {
        match run.want() {
            Want::Tail(len) => {
                let start = bytes.len().saturating_sub(len as usize);
                run.give_tail(&bytes[start..])?;
            }
            Want::Block { handle, end, sum } => {
                serve_block(&mut run, front(bytes, end), handle, sum)?;
            }
            Want::Nothing => return Ok(run.finish()),
        }
    }
}

/// Hands in the block that is wanted, of which the bytes are those that it is looked for in.
fn serve_block(
    run: &mut StatusRun,
    bytes: &[u8],
    handle: Handle,
    sum: SumKind,
) -> Result<(), Memory>
    requires { (end : ℕ) × (want_of run.old ≡ Want.Block handle end sum) }
    ensures follows { (end : ℕ) (table : List ℕ) → want_of run.old ≡ Want.Block handle end sum → bytes.now ≡ take end table → Follows run.old table → OnOk result (Follows run.new table) }
    ensures left { OnOk result (left run.new < left run.old) }
    ensures length { run.new.length ≡ run.old.length }
{
    match checked_block(bytes, handle, sum) {
        Ok(block) => run.give_block(block),
        Err(fault) => {
            run.give_fault(fault);
            Ok(())
        }
    }
}

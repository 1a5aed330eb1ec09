//! The table, which has one put in each key.
ghost use Rattle.std.specs.Prelude.{◌≡◌, ◌+◌, ◌<◌, ◌≤◌, false, [], IfOk, OnOk};
ghost use Rattle.rk_bytes.specs.Model.Drill.{drill_table};
ghost use Rattle.rk_gen.specs.Puts.{own_puts};

use crate::numbers::{key_with, value_with};
use rk_bytes::{Bytes, Memory};
use rk_ikey::{Kind, ParsedKey};
use rk_tablew::TableWriter;
use std::alloc::Global;

/// The table's bytes. `Memory` comes only where memory runs out.
pub(crate) fn table(alloc: Global, number: u64) -> Result<Bytes, Memory>
    requires { number ≤ 100000 }
    ensures { IfOk result (λ table. table ≡ drill_table number) }
{
    let mut table = TableWriter::new(alloc);
    for before in 0..number {
        add_put(&mut table, before)?;
    }
    table.finish(0, b"default")
}

/// Adds the put of the next key to the table of so many keys.
fn add_put(table: &mut TableWriter, before: u64) -> Result<(), Memory>
    requires few { before < 100000 }
    requires puts { table.old ≡ record { records = own_puts before; ranges = []; failed = false } }
    ensures { OnOk result (table.new ≡ record { records = own_puts (before + 1); ranges = []; failed = false }) }
{
    let number = before + 1;
    let key = key_with(number);
    let key = ParsedKey {
        user: &key,
        sequence: number,
        kind: Kind::Value,
    };
    table.add(&key, &value_with(number))
}

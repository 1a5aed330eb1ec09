//! The tables that families list, in rising number.
ghost use Rattle.std.specs.Prelude.{◌≡◌, ◌++◌, map, IfOk, OnOk};
ghost use Rattle.std.specs.List.{AllByRecursion};
ghost use Rattle.rk_bytes.specs.Model.Opening.{listed_by, listed_tables};
ghost use Rattle.rk_open.specs.Tables.{listed_of};

use rk_bytes::Memory;
use rk_bytes::model::{FamilyState, FileMeta};
use std::alloc::Global;

/// A table that a family lists.
#[derive(Clone, Copy)]
pub(crate) struct ListedTable<'v> {
    /// The family that the manifest gives it.
    pub(crate) family: u32,
    pub(crate) file: &'v FileMeta,
}

/// The tables that the families list, in rising number.
pub(crate) fn sorted_tables<'v>(
    alloc: Global,
    families: &'v [FamilyState],
) -> Result<Vec<ListedTable<'v>>, Memory>
    ensures { IfOk result (λ tables. map listed_of tables.items ≡ listed_tables families.now) }
{
    let mut tables = Vec::new(alloc);
    for live in families {
        push_tables(live, &mut tables)?;
    }
    tables.sort_by_key(|table| table.file.number)?;
    Ok(tables)
}

/// Puts the tables that a family lists at the end.
fn push_tables<'v>(live: &'v FamilyState, tables: &mut Vec<ListedTable<'v>>) -> Result<(), Memory>
    ensures { OnOk result (map listed_of tables.new.items ≡ map listed_of tables.old.items ++ listed_by live.now) }
{
    for file in live.files.as_slice() {
        tables.push(ListedTable {
            family: live.id,
            file,
        })?;
    }
    Ok(())
}

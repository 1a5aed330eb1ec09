//! Laws of tables.
ghost use Rattle.std.specs.Prelude.{◌≡◌, ◌≢◌, Bool, Ok};
ghost use Rattle.std.specs.List.{AllByRecursion};
ghost use Rattle.rk_bytes.specs.Model.Numbers.{AreBytes};
ghost use Rattle.rk_bytes.specs.Model.TableStatus.{Good, table_status};
ghost use Rattle.rk_bytes.specs.Model.Writers.{TableContents, table_bytes};
ghost use Rattle.rk_laws.specs.WritableTables.{IsWritableTable, OfBytes, Holds};

/// Law: what is written of contents within the formats' bounds is a good table that holds them, and bytes where they are bytes. Its records
/// are those of the contents, where these are of its family, unless this has the greatest id of 31 bits, which is read as 0.
pub fn written_table()
    ensures good { (states_sizes : Bool) (table : TableContents) → IsWritableTable table → (good : Good) × (table_status (table_bytes states_sizes table) ≡ Ok good) × Holds table good }
    ensures own { (table : TableContents) (good : Good) → Holds table good → table.family ≢ 2147483647 → AllByRecursion (λ r. r.family ≡ table.family) table.records → good.records ≡ table.records }
    ensures bytes { (states_sizes : Bool) (table : TableContents) → IsWritableTable table → OfBytes table → AreBytes (table_bytes states_sizes table) }
{}

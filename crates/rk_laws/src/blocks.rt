//! Laws of blocks.
ghost use Rattle.std.specs.Prelude.{◌≡◌, ◌↔◌, ℕ, ◌^◌, ◌<◌, Bool, false, List, [], length, map, Ok};
ghost use Rattle.std.specs.List.{AllByRecursion};
ghost use Rattle.rk_bytes.specs.declared.model.block.Handle.{Handle};
ghost use Rattle.rk_bytes.specs.declared.model.block.IndexEntry.{IndexEntry};
ghost use Rattle.rk_bytes.specs.Model.Numbers.{AreBytes};
ghost use Rattle.rk_bytes.specs.Model.BlockEntries.{Entry, IsBlock, SpellsEntry, block_entries, SpellsDeltaEntry, no_handle, delta_handles, SpellsEntryWith, SpellsHandle, whole_handles, IsIndex, index_entries};
ghost use Rattle.rk_bytes.specs.Model.Writers.{KeyValue, block_bytes, handle_bytes};

/// Law: the entries that are read of a block are those that its bytes spell, and there is at most one
/// list of them.
pub fn one_block()
    ensures read { (block : List ℕ) (entries : List (Entry (List ℕ))) → AreBytes block → (block_entries block ≡ Ok entries) ↔ IsBlock SpellsEntry [] block entries }
    ensures unique { (block : List ℕ) (entries others : List (Entry (List ℕ))) → IsBlock SpellsEntry [] block entries → IsBlock SpellsEntry [] block others → others ≡ entries }
{}

/// Law: the same of an index block with delta-encoded handles.
pub fn one_delta_index()
    ensures read { (block : List ℕ) (entries : List (Entry Handle)) → AreBytes block → (delta_handles block ≡ Ok entries) ↔ IsBlock SpellsDeltaEntry no_handle block entries }
    ensures unique { (block : List ℕ) (entries others : List (Entry Handle)) → IsBlock SpellsDeltaEntry no_handle block entries → IsBlock SpellsDeltaEntry no_handle block others → others ≡ entries }
{}

/// Law: the same of an index block in either form, and of any block whose values are whole handles.
pub fn one_index()
    ensures whole { (block : List ℕ) (entries : List (Entry Handle)) → AreBytes block → (whole_handles block ≡ Ok entries) ↔ IsBlock (SpellsEntryWith SpellsHandle) no_handle block entries }
    ensures read { (is_delta : Bool) (block : List ℕ) (index : List IndexEntry) → AreBytes block → (index_entries is_delta block ≡ Ok index) ↔ IsIndex is_delta block index }
    ensures unique { (is_delta : Bool) (block : List ℕ) (index other : List IndexEntry) → IsIndex is_delta block index → IsIndex is_delta block other → other ≡ index }
{}

/// Law: what is written of entries is a block, of bytes where theirs are, and is read again as the same entries. Where their values are
/// handles it is an index block of them.
pub fn written_block()
    ensures read { (restart_every : ℕ) (entries : List KeyValue) → length (block_bytes restart_every entries) < 2 ^ 32
        → (read : List (Entry (List ℕ))) × (block_entries (block_bytes restart_every entries) ≡ Ok read) × (map (λ entry. (entry.key, entry.value)) read ≡ entries) }
    ensures bytes { (restart_every : ℕ) (entries : List KeyValue) → AllByRecursion (λ entry. AreBytes entry.0 × AreBytes entry.1) entries → length (block_bytes restart_every entries) < 2 ^ 32
        → AreBytes (block_bytes restart_every entries) }
    ensures handles { (restart_every : ℕ) (entries : List (List ℕ × Handle)) → AllByRecursion (λ entry. (entry.1.offset < 2 ^ 64) × (entry.1.size < 2 ^ 64)) entries
        → length (block_bytes restart_every (map (λ entry. (entry.0, handle_bytes entry.1)) entries)) < 2 ^ 32
        → (read : List (Entry Handle)) × (whole_handles (block_bytes restart_every (map (λ entry. (entry.0, handle_bytes entry.1)) entries)) ≡ Ok read) × (map (λ entry. (entry.key, entry.value)) read ≡ entries) }
    ensures index { (restart_every : ℕ) (entries : List (List ℕ × Handle)) → AllByRecursion (λ entry. (entry.1.offset < 2 ^ 64) × (entry.1.size < 2 ^ 64)) entries
        → length (block_bytes restart_every (map (λ entry. (entry.0, handle_bytes entry.1)) entries)) < 2 ^ 32
        → index_entries false (block_bytes restart_every (map (λ entry. (entry.0, handle_bytes entry.1)) entries)) ≡ Ok (map (λ entry. record { separator = entry.0; block = entry.1 }) entries) }
{}

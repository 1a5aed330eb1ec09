ghost use Rattle.std.specs.Prelude.{◌≡◌, ◌↔◌, IsTrue};
ghost use Rattle.rk_bytes.specs.Model.Records.{slot_of};

use crate::{Kind, Record};

/// Whether a record map can't hold both records: their families, keys, sequence numbers and kinds agree,
/// and of range deletions the ends too. Takes no memory.
pub fn same_place(a: &Record, b: &Record) -> bool
    ensures { IsTrue result ↔ (slot_of a.now ≡ slot_of b.now) }
{
    a.family == b.family
        && a.sequence == b.sequence
        && a.kind == b.kind
        && a.key.as_slice() == b.key.as_slice()
        && (a.kind != Kind::RangeDeletion || a.value.as_slice() == b.value.as_slice())
}

ghost use Rattle.std.specs.Prelude.{◌++◌};
ghost use Rattle.std.proofs.Common.{rules};
ghost use Rattle.std.specs.Hash as fed;
ghost use Rattle.std.specs.Cmp.Rules.{hashing};

use rk_meta::{Handle, SumKind};
use std::hash::{Hash, Hasher};

/// What a block is asked for by.
#[derive(Clone, Copy, Debug, PartialEq, Eq)]
pub(crate) struct BlockKey {
    /// The table's number.
    pub(crate) number: u64,
    /// How many bytes of the table, from its begin on, may hold the block and its trailer.
    pub(crate) size: u64,
    pub(crate) handle: Handle,
    pub(crate) sum: SumKind,
}

// Blocks of one table begin at places of their own.
impl Hash for BlockKey {
    ghost hash_input = { λ key. fed.u64 key.number ++ fed.u64 key.handle.offset };

    ghost respects_eq = { Prim.search (hashing, rules) };

    fn hash<H: Hasher>(&self, state: &mut H) {
        self.number.hash(state);
        self.handle.offset.hash(state);
    }
}

//! What was added to a builder, in order. Only clauses read it: it takes no memory, and its methods do
//! nothing when a program runs.
ghost use Rattle.std.specs.Prelude.{◌≡◌, ℕ, List, [], ◌∷◌, ◌++◌};
ghost use Rattle.std.specs.Borrow.{ftrue};

use std::marker::{Model, PhantomData};

/// Additions, in order: the numbers, the key and the value of each.
#[derive(Drop)]
pub struct History {
    marker: PhantomData<u8>,
    pub ghost items: { List (List ℕ × List ℕ × List ℕ) },
}

impl Model for History {
    ghost also_owns = { λ _. ftrue };
}

impl History {
    /// Nothing was added.
    pub fn new() -> History
        ensures { result.items ≡ [] }
    {
        History {
            marker: PhantomData,
        }
    }

    /// One more addition.
    pub fn note(&mut self, _numbers: &[u64], _key: &[u8], _value: &[u8])
        ensures { self.new.items ≡ self.old.items ++ (_numbers.now, _key.now, _value.now) ∷ [] }
    {}
}

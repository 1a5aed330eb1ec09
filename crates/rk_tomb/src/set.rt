ghost use Rattle.std.specs.Prelude.{◌≡◌, ◌≤◌, ℕ, List, [], ◌∷◌, ◌++◌, OnOk, OnErr};
ghost use Rattle.rk_bytes.specs.Model.KeyView.{covering};
ghost use Rattle.rk_tomb.specs.Bounds.{HasWholeBounds};

use crate::Tomb;
use crate::index::{Node, index_last, newest_in_runs};
use crate::lookup::Lookup;
use rk_bytes::Memory;
use rk_ikey::{Kind, TOP};
use std::alloc::Global;
use std::marker::Model;

/// Range deletions, in which what covers a record is found without going through all of them. Contracts see
/// them as a list, in the order in which they were added.
#[derive(Debug, Drop)]
pub struct TombSet {
    alloc: Global,
    tombs: Vec<Tomb>,
    nodes: Vec<Node>,
}

impl Model for TombSet {
    ghost use Rattle.std.specs.Prelude.{List};
    ghost use Rattle.std.specs.List.{All};
    ghost use Rattle.rk_bytes.specs.declared.model.view.Tomb.{Tomb};

    ghost Value = { List Tomb };

    ghost use Rattle.rk_tomb.specs.Bounds.{HasWholeBounds};
    ghost use Rattle.rk_tomb.specs.Index.{IsIndex};

    ghost view = { λ s. s.tombs.items };

    ghost invariant = { λ s. IsIndex s.tombs.items s.nodes.items × All (λ tomb. HasWholeBounds tomb.cut) s.tombs.items };
}

impl TombSet {
    /// No range deletions. Takes no memory yet.
    pub fn new(alloc: Global) -> TombSet
        ensures { result ≡ [] }
    {
        TombSet {
            alloc,
            tombs: Vec::new(alloc),
            nodes: Vec::new(alloc),
        }
    }

    /// Adds a range deletion. The bounds that it is cut to, if any, are internal keys and so have at least 8
    /// bytes. One that ends before it starts covers nothing, and neither does one whose bounds are the wrong
    /// way round. Where memory runs out, it changes nothing and drops the range deletion.
    pub fn add(&mut self, tomb: Tomb) -> Result<(), Memory>
        requires { HasWholeBounds tomb.cut }
        ensures ok { OnOk result (self.new ≡ self.old ++ tomb ∷ []) }
        ensures err { OnErr result (self.new ≡ self.old) }
    {
        self.tombs.push(tomb)?;
        match index_last(self.alloc, self.tombs.as_slice(), &mut self.nodes) {
            Ok(()) => Ok(()),
            Err(memory) => {
                self.tombs.pop();
                Err(memory)
            }
        }
    }

    /// The greatest sequence number of a range deletion that covers the record of this user key, sequence
    /// number (at most `TOP`) and kind: one of its family with a greater sequence number, whose start isn't
    /// above the key and whose end is, and between whose bounds, if it is cut to any, the record's internal
    /// key lies, both included. `None` where there is no such one. Takes no memory.
    pub fn covering(&self, family: u32, user: &[u8], sequence: u64, kind: Kind) -> Option<u64>
        requires { sequence ≤ TOP }
        ensures { (value : List ℕ) → result ≡ covering self.now (record { family = family; key = user.now; sequence = sequence; kind = kind; value = value }) }
    {
        let lookup = Lookup {
            family,
            user,
            sequence,
            kind,
        };
        let newest = newest_in_runs(
            self.tombs.as_slice(),
            self.nodes.as_slice(),
            &lookup,
            sequence,
        );
        if newest > sequence {
            Some(newest)
        } else {
            None
        }
    }
}

//! A table's status, found of the parts of its file that are asked for one after another.
ghost use Rattle.std.specs.Prelude.{◌≡◌, ◌<◌, ◌↔◌, ℕ, List, Ok, Err, min, length, OnOk, OnErr, IsOk, IfOk, IfErr};
ghost use Rattle.rk_table.specs.Steps.{Hands, IsSoundStatus, IsSound, NeedsBlock, Continues, steps_left};
ghost use Rattle.rk_table.specs.Runs.{begun, want_of, left, Follows, IsStatus, AsksTail, AsksBlock, HandsTail};

use crate::data::{after_data, after_index};
use crate::fault::trailer_fault;
use crate::head::{after_metaindex, after_properties, after_ranges};
use crate::stage::Stage;
use crate::tail::{MOST_FOOTER_LEN, after_tail, ended};
use crate::{Handle, Status, TableWhy, TrailerFault, Want};
use rk_bytes::Memory;
use rk_bytes::model::Footer;
use std::alloc::Global;
use std::marker::Model;
use std::mem;

/// The finding of a table's status, without its file. It says which part it needs next, and goes on when
/// that is handed in. Contracts see the file's length and how far it has come.
#[derive(Debug, Drop)]
pub struct StatusRun {
    alloc: Global,
    length: u64,
    stage: Stage,
}

impl Model for StatusRun {
    ghost use Rattle.rk_table.specs.Steps.{IsSound};
    ghost use Rattle.rk_table.specs.Runs.{RunSeen};

    ghost Value = { RunSeen };

    ghost view = { λ r. record { length = r.length; stage = r.stage } };

    ghost invariant = { λ r. IsSound r.stage };
}

impl StatusRun {
    /// For a file of this length in bytes. Takes no memory yet.
    pub fn new(alloc: Global, file_len: u64) -> StatusRun
        ensures run { result ≡ begun file_len }
        ensures follows { (table : List ℕ) → length table ≡ file_len → Follows result table }
    {
        StatusRun {
            alloc,
            length: file_len,
            stage: Stage::Tail,
        }
    }

    /// What is needed next: the file's last bytes, then each block that the status reads, in the order of
    /// the tests, and `Nothing` once the status is known. Takes no memory.
    pub fn want(&self) -> Want
        ensures want { result ≡ want_of self.now }
        ensures ended { (result ≡ Want.Nothing) ↔ (left self.now ≡ 0) }
    {
        match &self.stage {
            Stage::Tail => Want::Tail(self.length.min(MOST_FOOTER_LEN)),
            Stage::Metaindex { footer } => block_wanted(footer, footer.metaindex),
            Stage::Properties { footer, at, .. } => block_wanted(footer, *at),
            Stage::Ranges { footer, at, .. } => block_wanted(footer, *at),
            Stage::Index { footer, .. } => block_wanted(footer, footer.index),
            Stage::Data {
                footer,
                table,
                number,
            } => block_wanted(footer, table.index.as_slice()[*number].block),
            Stage::Ended(_) => Want::Nothing,
        }
    }

    /// Hands in the file's last bytes. Fewer than are wanted are no footer. It takes no memory.
    pub fn give_tail(&mut self, bytes: &[u8]) -> Result<(), Memory>
        requires { AsksTail (want_of self.old) (length bytes.now) }
        ensures ok { IsOk result }
        ensures follows { (table : List ℕ) → Follows self.old table → HandsTail table (want_of self.old) bytes.now → Follows self.new table }
        ensures short { length bytes.now < min 53 self.old.length → self.new.stage ≡ Stage.Ended (Status.Damaged TableWhy.FooterShort 0) }
        ensures left { left self.new < left self.old }
        ensures length { self.new.length ≡ self.old.length }
    {
        let next = after_tail(self.length, bytes);
        put(&mut self.stage, next);
        Ok(())
    }

    /// Hands in the block that is wanted, as its trailer's test gave it. Where memory runs out, it changes
    /// nothing.
    pub fn give_block(&mut self, block: &[u8]) -> Result<(), Memory>
        requires { AsksBlock (want_of self.old) }
        ensures follows { (table : List ℕ) → Follows self.old table → Hands table (want_of self.old) (Ok block.now) → OnOk result (Follows self.new table) }
        ensures left { OnOk result (left self.new < left self.old) }
        ensures length { self.new.length ≡ self.old.length }
        ensures err { OnErr result (self.new ≡ self.old) }
    {
        let stage = mem::replace(&mut self.stage, Stage::Tail);
        match after_block(self.alloc, stage, block) {
            Ok(next) => {
                self.stage = next;
                Ok(())
            }
            Err(kept) => {
                self.stage = kept;
                Err(Memory)
            }
        }
    }

    /// Hands in the fault of the block that is wanted. Takes no memory.
    pub fn give_fault(&mut self, fault: TrailerFault)
        requires { AsksBlock (want_of self.old) }
        ensures follows { (table : List ℕ) → Follows self.old table → Hands table (want_of self.old) (Err fault) → Follows self.new table }
        ensures left { left self.new < left self.old }
        ensures length { self.new.length ≡ self.old.length }
    {
        if let Want::Block { handle, .. } = self.want() {
            let next = ended(trailer_fault(handle.offset, fault));
            put(&mut self.stage, next);
        }
    }

    /// The status. Takes no memory.
    pub fn finish(self) -> Status
        requires { want_of self ≡ Want.Nothing }
        ensures status { (table : List ℕ) → Follows self table → IsStatus result table }
        ensures top { IsSoundStatus result }
    {
        let StatusRun { stage, .. } = self;
        match stage {
            Stage::Ended(status) => status,
            _ => unreachable!(),
        }
    }
}

/// Puts a stage in another's place.
fn put(stage: &mut Stage, next: Stage)
    ensures { stage.new ≡ next }
{
    *stage = next;
}

/// The block of a handle, in a table with this footer.
fn block_wanted(footer: &Footer, handle: Handle) -> Want
    ensures { result ≡ Want.Block handle footer.now.start footer.now.sum }
{
    Want::Block {
        handle,
        end: footer.start,
        sum: footer.sum,
    }
}

/// The stage after the block that is wanted at this stage. Where memory runs out, the stage is given back.
fn after_block(alloc: Global, stage: Stage, block: &[u8]) -> Result<Stage, Stage>
    requires sound { IsSound stage }
    requires needs { NeedsBlock stage }
    ensures ok { IfOk result (Continues stage block.now) }
    ensures sound { IfOk result IsSound }
    ensures lower { IfOk result (λ next. steps_left next < steps_left stage) }
    ensures err { IfErr result (λ kept. kept ≡ stage) }
{
    match stage {
        Stage::Metaindex { footer } => after_metaindex(alloc, footer, block),
        Stage::Properties {
            footer,
            at,
            ranges_at,
        } => after_properties(alloc, footer, at, ranges_at, block),
        Stage::Ranges {
            footer,
            properties,
            at,
        } => after_ranges(alloc, footer, properties, at, block),
        Stage::Index {
            footer,
            properties,
            ranges,
        } => after_index(alloc, footer, properties, ranges, block),
        Stage::Data {
            footer,
            table,
            number,
        } => after_data(alloc, footer, table, number, block),
        other => Err(other),
    }
}

//! The lines of a drill.
ghost use Rattle.std.specs.Prelude.{◌≡◌, ◌++◌, OnOk};
ghost use Rattle.rk_bytes.specs.Model.Lines.{drill_line, mode_line, best_efforts_line, count_words};
ghost use Rattle.rk_text.specs.Outcomes.{outcome_words};

use crate::{Line, Outcome};
use rk_bytes::Memory;
use rk_bytes::model::Mode;

impl Line {
    /// Makes this the first line of the drill with this number. `Memory` comes only where memory runs out.
    pub fn set_drill(&mut self, number: u64) -> Result<(), Memory>
        ensures { OnOk result (self.new ≡ drill_line number) }
    {
        self.clear();
        self.put_with_number(b"drill", number)?;
        self.end()
    }

    /// Makes this the line of a mode: what an opening in it came to. `Memory` comes only where memory runs
    /// out.
    pub fn set_mode(&mut self, mode: Mode, outcome: Outcome) -> Result<(), Memory>
        ensures { OnOk result (self.new ≡ mode_line mode (outcome_words outcome)) }
    {
        self.clear();
        self.put_with_byte(b"mode", mode as u8)?;
        self.put(b": ")?;
        self.put_outcome(outcome)?;
        self.end()
    }

    /// Makes this the line of best efforts: what an opening by them came to. `Memory` comes only where
    /// memory runs out.
    pub fn set_best_efforts(&mut self, outcome: Outcome) -> Result<(), Memory>
        ensures { OnOk result (self.new ≡ best_efforts_line (outcome_words outcome)) }
    {
        self.clear();
        self.put(b"best-efforts: ")?;
        self.put_outcome(outcome)?;
        self.end()
    }

    /// Puts what an opening came to at the end.
    fn put_outcome(&mut self, outcome: Outcome) -> Result<(), Memory>
        ensures { OnOk result (self.new ≡ self.old ++ outcome_words outcome) }
    {
        match outcome {
            Outcome::Counts { records, keys } => self.put_counts(records, keys),
            Outcome::Refused(why) => self.put_refused(why),
        }
    }

    /// Puts how many records and keys there are at the end.
    fn put_counts(&mut self, records: u64, keys: u64) -> Result<(), Memory>
        ensures { OnOk result (self.new ≡ self.old ++ count_words records keys) }
    {
        self.put_with_number(b"records", records)?;
        self.put_with_number(b" keys", keys)
    }
}

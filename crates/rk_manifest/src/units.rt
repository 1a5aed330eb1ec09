ghost use Rattle.std.specs.Prelude.{◌≡◌, false, [], IfOk};
ghost use Rattle.std.specs.List.{All};
ghost use Rattle.rk_bytes.specs.Model.Manifest.{manifest_units};
ghost use Rattle.rk_log.specs.Items.{item_of, is_end};
ghost use Rattle.rk_manifest.specs.Units.{AreUnits, ReadsWhole};

use crate::group::Begun;
use crate::reading::{Reading, record_in};
use crate::{ManifestFault, Unit};
use rk_bytes::{Memory, Seq};
use rk_log::{Item, LogReader};
use std::alloc::Global;

/// The units of a manifest.
#[derive(Debug, Drop)]
pub struct Units<'a> {
    /// Those before the first fault of reading, the first of which has the number 1.
    pub units: Seq<Unit<'a>>,
    /// That fault, if there is one.
    pub fault: Option<ManifestFault>,
}

/// The units that the bytes of a manifest's file hold, and the first fault of reading them: a piece of
/// the log that is left out or isn't supported, an edit that doesn't read, or one that isn't the next of its
/// group. A group that the log's end cuts off is no unit. `Memory` comes only where memory runs out.
pub fn read_units<'a>(alloc: Global, bytes: &'a [u8]) -> Result<Units<'a>, Memory>
    ensures units { IfOk result (λ units. AreUnits units (manifest_units bytes.now)) }
    ensures read { IfOk result (λ units. All ReadsWhole units.units) }
{
    let mut reader = LogReader::new(bytes, 0);
    let mut parting = Parting::new(alloc);
    loop {
        let item = reader.next(alloc)?;
        if let Reading::Ended(fault) = parting.take(item)? {
            return Ok(Units {
                units: parting.units,
                fault,
            });
        }
    }
}

/// A manifest whose items are parted into units.
#[derive(Debug, Drop)]
struct Parting<'a> {
    /// The units so far.
    units: Seq<Unit<'a>>,
    begun: Begun<'a>,
}

impl<'a> Parting<'a> {
    ghost use Rattle.rk_manifest.specs.Partings.{Parts};

    /// Before the first item.
    fn new(alloc: Global) -> Parting<'a>
        ensures units { result.units ≡ [] }
        ensures begun { result.begun.edits ≡ [] }
    {
        Parting {
            units: Seq::new(alloc),
            begun: Begun::new(alloc),
        }
    }

    /// Takes the next item.
    fn take(&mut self, item: Item<'a>) -> Result<Reading, Memory>
        ensures parts { Parts self.old (item_of item.entry) result self.new }
        ensures more { IfOk result (λ reading. reading ≡ Reading.GoesOn → is_end (item_of item.entry) ≡ false) }
    {
        let edit = match record_in(item) {
            Ok(edit) => edit,
            Err(fault) => return Ok(Reading::Ended(fault)),
        };
        let number = self.units.as_slice().len() as u64 + 1;
        match self.begun.join(edit.as_slice(), number) {
            Ok(stated) => {
                if let Some(unit) = self.begun.take(edit, stated)? {
                    self.units.push(unit)?;
                }
                Ok(Reading::GoesOn)
            }
            Err(fault) => Ok(Reading::Ended(Some(fault))),
        }
    }
}

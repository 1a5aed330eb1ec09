ghost use Rattle.std.specs.Prelude.{◌≡◌, ◌+◌, ◌<◌, ◌≤◌, ◌^◌, IfOk};
ghost use Rattle.std.specs.List.{All};
ghost use Rattle.rk_bytes.specs.Model.Manifest.{ManifestUnit, Units as StatedUnits, first_version, complete, last_version as last_of_units};
ghost use Rattle.rk_version.specs.Units.{IsUnit};
ghost use Rattle.rk_manifest.specs.Units.{AreUnits, ReadsWhole};
ghost use Rattle.rk_manifest.specs.Last.{IsLast, AppliesTo, ended_with};

use crate::{EditWhy, ManifestErr, ManifestFault, Unit, Units, Version, Which};
use rk_bytes::Memory;
use rk_version::{ApplyFault, VersionBuilder};
use std::alloc::Global;

/// The version after all units. Edits have to state a log number, the next file and the last sequence number.
/// The fault is that of the first unit that is refused, or else that of reading, or else it names the first of
/// the three that no edit states. `Memory` comes only where memory runs out.
pub fn last_version(alloc: Global, units: &Units<'_>) -> Result<Version, ManifestErr>
    requires { All ReadsWhole units.now.units }
    ensures { (means : StatedUnits) → AreUnits units.now means → IsLast (last_of_units means) result }
{
    let mut applied = Applied::new(alloc)?;
    for unit in units.units.as_slice() {
        applied.apply(unit)?;
    }
    Ok(applied.finish(units.fault)?)
}

/// The units so far, and the version after them.
#[derive(Debug, Drop)]
pub(crate) struct Applied {
    count: u64,
    builder: VersionBuilder,
}

impl Applied {
    /// No units.
    pub(crate) fn new(alloc: Global) -> Result<Applied, Memory>
        ensures { IfOk result (λ applied. applied ≡ record { count = 0; builder = first_version }) }
    {
        Ok(Applied {
            count: 0,
            builder: VersionBuilder::new(alloc)?,
        })
    }

    /// How many units there are.
    pub(crate) fn count(&self) -> u64
        ensures { result ≡ self.now.count }
    {
        self.count
    }

    /// Applies the next unit. One that is refused changes nothing.
    pub(crate) fn apply(&mut self, unit: &Unit<'_>) -> Result<(), ManifestErr>
        requires reads { ReadsWhole unit.now }
        requires room { self.old.count + 1 < 2 ^ 64 }
        ensures applies { (means : ManifestUnit) → IsUnit unit.now means → AppliesTo means self.old result self.new }
        ensures count { self.new.count ≤ self.old.count + 1 }
    {
        match self.builder.apply(unit) {
            Ok(()) => {
                self.count += 1;
                Ok(())
            }
            Err(ApplyFault::Memory) => Err(ManifestErr::Memory),
            Err(why) => Err(refused(self.count + 1, why)),
        }
    }

    /// The version after the last unit, where this fault ended the units, if one did.
    pub(crate) fn finish(self, fault: Option<ManifestFault>) -> Result<Version, ManifestFault>
        ensures { result ≡ ended_with fault self.builder }
    {
        match fault {
            Some(fault) => Err(fault),
            None => whole(self.builder.into_version()),
        }
    }
}

/// The unit with this number is refused.
fn refused(unit: u64, why: ApplyFault) -> ManifestErr
    ensures { result ≡ ManifestErr.Fault (ManifestFault.BadEdit unit (EditWhy.Apply why)) }
{
    ManifestErr::Fault(ManifestFault::BadEdit {
        unit,
        why: EditWhy::Apply(why),
    })
}

/// The version, where edits state all three numbers.
fn whole(version: Version) -> Result<Version, ManifestFault>
    ensures { result ≡ complete version }
{
    if !version.log_seen {
        return Err(ManifestFault::NoFields(Which::LogNumber));
    }
    if version.next_file.is_none() {
        return Err(ManifestFault::NoFields(Which::NextFile));
    }
    if version.last_sequence.is_none() {
        return Err(ManifestFault::NoFields(Which::LastSequence));
    }
    Ok(version)
}

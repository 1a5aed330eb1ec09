//! The units of a manifest that count: those before the first one that is refused.
ghost use Rattle.std.specs.Prelude.{◌≡◌, ◌≢◌, ◌≤◌, length, map, take, is_ok, Ok, IfOk};
ghost use Rattle.std.specs.List.{All};
ghost use Rattle.rk_bytes.specs.Model.BestEfforts.{usable};
ghost use Rattle.rk_bytes.specs.Model.Manifest.{complete, first_version, version_after};
ghost use Rattle.rk_manifest.specs.Units.{ReadsWhole};
ghost use Rattle.rk_version.specs.Units.{meaning};

use rk_bytes::Memory;
use rk_version::{ApplyFault, Unit, Version, VersionBuilder};
use std::alloc::Global;

/// The units that count.
#[derive(Debug, Drop)]
pub(crate) struct Usable {
    /// How many they are.
    pub(crate) count: usize,
    /// The version after them.
    pub(crate) version: Version,
}

/// The units before the first one that is refused. `Memory` comes only where memory runs out.
pub(crate) fn usable_units(alloc: Global, units: &[Unit<'_>]) -> Result<Usable, Memory>
    requires { All ReadsWhole units.now }
    ensures within { IfOk result (λ usable. usable.count ≤ length units.now) }
    ensures units { IfOk result (λ front. map meaning (take front.count units.now) ≡ usable (map meaning units.now)) }
    ensures version { IfOk result (λ front. version_after 1 (map meaning (take front.count units.now)) first_version ≡ Ok front.version) }
{
    let mut builder = VersionBuilder::new(alloc)?;
    let mut count = 0;
    for unit in units {
        match builder.apply(unit) {
            Ok(()) => count += 1,
            Err(why) => return stopped(why, builder, count),
        }
    }
    Ok(applied(builder, count))
}

/// So many units are applied, and the next one isn't for this reason.
fn stopped(why: ApplyFault, builder: VersionBuilder, count: usize) -> Result<Usable, Memory>
    ensures refused { IfOk result (λ front. why ≢ ApplyFault.Memory) }
    ensures count { IfOk result (λ front. front.count ≡ count) }
    ensures version { IfOk result (λ front. front.version ≡ builder) }
{
    match why {
        ApplyFault::Memory => Err(Memory),
        _ => Ok(applied(builder, count)),
    }
}

/// So many units are applied.
fn applied(builder: VersionBuilder, count: usize) -> Usable
    ensures count { result.count ≡ count }
    ensures version { result.version ≡ builder }
{
    Usable {
        count,
        version: builder.into_version(),
    }
}

/// Whether edits state all three numbers that a version needs.
pub(crate) fn is_complete(version: &Version) -> bool
    ensures { result ≡ is_ok (complete version.now) }
{
    version.log_seen && version.next_file.is_some() && version.last_sequence.is_some()
}

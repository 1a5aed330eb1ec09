//! Which units are groups.
ghost use Rattle.std.specs.Prelude.{◌≡◌, map, IfOk};
ghost use Rattle.rk_bytes.specs.Model.BestEfforts.{group_places};
ghost use Rattle.rk_version.specs.Units.{meaning};

use rk_bytes::{Memory, Seq};
use rk_version::Unit;
use std::alloc::Global;

/// The places of the units that are groups, of which the first unit has the place 1. `Memory` comes only where
/// memory runs out.
pub(crate) fn group_places(alloc: Global, units: &[Unit<'_>]) -> Result<Seq<u64>, Memory>
    ensures { IfOk result (λ places. places ≡ group_places 1 (map meaning units.now)) }
{
    let mut places = Seq::new(alloc);
    for (i, unit) in units.iter().enumerate() {
        if unit.group {
            places.push(i as u64 + 1)?;
        }
    }
    Ok(places)
}

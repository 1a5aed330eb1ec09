ghost use Rattle.std.specs.Prelude.{◌≡◌};
ghost use Rattle.rk_bytes.specs.Model.Manifest.{first_log};

use crate::Version;

/// The least number of a log that may hold records that no table of the version holds. Takes no memory.
pub fn first_log(version: &Version) -> u64
    ensures { result ≡ first_log version.now }
{
    match version.families.as_slice() {
        [] => version.least_log,
        [first, rest @ ..] => {
            let mut least = first.log;
            for live in rest {
                least = least.min(live.log);
            }
            version.least_log.max(least)
        }
    }
}

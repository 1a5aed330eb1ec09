ghost use Rattle.std.specs.Prelude.{◌≡◌};
ghost use Rattle.rk_bytes.specs.Model.FileNames.{current_manifest};

use crate::number::manifest_number;
use memchr::memchr;
use rk_bytes::model::CurrentFault;

/// The number of the manifest that `CURRENT` names, where these are its bytes. `NoNewline` is answered
/// where there is no newline; then `Trailing` where a byte follows the first newline; then `NotManifest`
/// where what stands before it isn't the exact name of a manifest.
pub fn read_current(bytes: &[u8]) -> Result<u64, CurrentFault>
    ensures { result ≡ current_manifest bytes.now }
{
    let newline = memchr(b'\n', bytes).ok_or(CurrentFault::NoNewline)?;
    if newline + 1 < bytes.len() {
        return Err(CurrentFault::Trailing);
    }
    manifest_number(&bytes[..newline]).ok_or(CurrentFault::NotManifest)
}

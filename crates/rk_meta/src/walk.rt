ghost use Rattle.std.specs.Prelude.{◌≡◌, OnOk};
ghost use Rattle.rk_meta.specs.Walk.{GoesOn};

use rk_block::{Entries, KeyBuf};
use rk_bytes::Memory;

/// The value of the next entry, or `None` where none is left. `key` goes from the key before the entry to the
/// entry's own. Where memory runs out, the walk is over.
pub(crate) fn next_value<'a>(
    entries: &mut Entries<'a>,
    key: &mut KeyBuf,
) -> Result<Option<&'a [u8]>, Memory>
    requires { key.old ≡ entries.old.key }
    ensures next { GoesOn entries.old entries.new result }
    ensures key { OnOk result (key.new ≡ entries.new.key) }
{
    let Some(entry) = entries.next_entry() else {
        return Ok(None);
    };
    key.step(&entry)?;
    Ok(Some(entry.value))
}

//! Internal keys as they are shown.
ghost use Rattle.std.specs.Prelude.{◌≡◌, ◌++◌, ◌≤◌, length, IfOk, OnOk};
ghost use Rattle.rk_bytes.specs.Model.Lines.{key_text};

use crate::Line;
use rk_bytes::{Bytes, Memory};
use rk_ikey::split_key;
use std::alloc::Global;

/// An internal key of at least 8 bytes as it is shown: its user key, its sequence number and the number
/// of its kind. `Memory` comes only where memory runs out.
pub fn key_text(alloc: Global, internal: &[u8], hex: bool) -> Result<Bytes, Memory>
    requires { 8 ≤ length internal.now }
    ensures { IfOk result (λ text. text ≡ key_text hex internal.now) }
{
    let mut line = Line::new(alloc);
    line.put_internal_key(internal, hex)?;
    Ok(line.into_bytes())
}

impl Line {
    /// Puts an internal key at the end.
    pub(crate) fn put_internal_key(&mut self, internal: &[u8], hex: bool) -> Result<(), Memory>
        requires { 8 ≤ length internal.now }
        ensures { OnOk result (self.new ≡ self.old ++ key_text hex internal.now) }
    {
        let (user, packed) = split_key(internal);
        self.put_quoted(user, hex)?;
        self.put(b"@")?;
        self.put_decimal(packed / 256)?;
        self.put(b":")?;
        self.put_decimal(packed % 256)
    }
}

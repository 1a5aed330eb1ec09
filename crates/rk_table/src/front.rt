ghost use Rattle.std.specs.Prelude.{◌≡◌, take};

/// The bytes up to this end, or all of them where there are fewer.
pub(crate) fn front(bytes: &[u8], end: u64) -> &[u8]
    ensures { result.now ≡ take end bytes.now }
{
    match usize::try_from(end) {
        Ok(end) if end <= bytes.len() => &bytes[..end],
        _ => bytes,
    }
}

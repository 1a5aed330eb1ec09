//! The number in a file's name: in decimal, with zeros before it to six digits at least.
ghost use Rattle.std.specs.Prelude.{◌≡◌, ◌++◌, length};
ghost use Rattle.rk_bytes.specs.Model.FileNames.{six_digits, named_number, manifest_number, number_with_ending};

/// The digits that a number has at least.
const LEAST_DIGITS: usize = 6;

/// The number of the manifest with this name.
pub(crate) fn manifest_number(name: &[u8]) -> Option<u64>
    ensures { result ≡ manifest_number name.now }
{
    let digits = name.strip_prefix(b"MANIFEST-")?;
    read_number(digits)
}

/// The number of the file whose name is a number and then this ending.
pub(crate) fn number_before(name: &[u8], ending: &[u8]) -> Option<u64>
    ensures { result ≡ number_with_ending (length ending.now) (λ n. six_digits n ++ ending.now) name.now }
{
    let digits = name.strip_suffix(ending)?;
    read_number(digits)
}

/// The number below 2^64 that is printed as these digits.
fn read_number(digits: &[u8]) -> Option<u64>
    ensures { result ≡ named_number six_digits digits.now digits.now }
{
    if digits.len() < LEAST_DIGITS || digits[0] == b'+' {
        return None;
    }
    if digits.len() > LEAST_DIGITS && digits[0] == b'0' {
        return None;
    }
    let digits = str::from_utf8(digits).ok()?;
    digits.parse().ok()
}

//! The keys and values of the directory, each of which stands for a number.
ghost use Rattle.std.specs.Prelude.{◌≡◌};
ghost use Rattle.rk_bytes.specs.Model.Drill.{drill_key, drill_value};

/// What a value's number is multiplied with, modulo 2 ^ 64.
const FACTOR: u64 = 2_654_435_761;

/// The key with a number: the number in 8 bytes, the most significant first.
pub(crate) fn key_with(number: u64) -> [u8; 8]
    ensures { result ≡ drill_key number }
{
    number.to_be_bytes()
}

/// The value with a number: its product with a constant, in the same form.
pub(crate) fn value_with(number: u64) -> [u8; 8]
    ensures { result ≡ drill_value number }
{
    number.wrapping_mul(FACTOR).to_be_bytes()
}

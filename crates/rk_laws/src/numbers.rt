//! Laws of numbers.
ghost use Rattle.std.specs.Prelude.{◌≡◌, ◌↔◌, ℕ, ◌^◌, ◌<◌, ◌≤◌, ℤ, List, ◌++◌, length, Ok};
ghost use Rattle.rk_bytes.specs.Model.Numbers.{AreBytes, varint_of, IsVarint32, IsVarint64, IsPrefixed, varint32_at, varint64_at, prefixed_at, from_zigzag, to_zigzag};

/// Law: a number's shortest varint is read again, whatever follows it.
pub fn varint_round_trip()
    ensures narrow { (n : ℕ) (rest : List ℕ) → n < 2 ^ 32 → varint32_at (varint_of n ++ rest) ≡ Ok (n, rest) }
    ensures wide { (n : ℕ) (rest : List ℕ) → n < 2 ^ 64 → varint64_at (varint_of n ++ rest) ≡ Ok (n, rest) }
{}

/// Law: a varint is read at the front of bytes just where they begin with a spelling of it, and so is
/// a slice after its length.
pub fn one_varint()
    ensures narrow { (bytes rest : List ℕ) (n : ℕ) → AreBytes bytes → (varint32_at bytes ≡ Ok (n, rest)) ↔ ((part : List ℕ) × IsVarint32 part n × (bytes ≡ part ++ rest)) }
    ensures wide { (bytes rest : List ℕ) (n : ℕ) → AreBytes bytes → (varint64_at bytes ≡ Ok (n, rest)) ↔ ((part : List ℕ) × IsVarint64 part n × (bytes ≡ part ++ rest)) }
    ensures prefixed { (bytes rest slice : List ℕ) → AreBytes bytes → (prefixed_at bytes ≡ Ok (slice, rest)) ↔ ((part : List ℕ) × IsPrefixed part slice × (bytes ≡ part ++ rest)) }
{}

/// Law: `varint_of` spells its number, and no spelling of it has fewer bytes.
pub fn shortest_varint()
    ensures narrow { (n : ℕ) → n < 2 ^ 32 → IsVarint32 (varint_of n) n }
    ensures wide { (n : ℕ) → n < 2 ^ 64 → IsVarint64 (varint_of n) n }
    ensures shortest { (n : ℕ) (bytes : List ℕ) → IsVarint64 bytes n → length (varint_of n) ≤ length bytes }
{}

/// Law: the zigzag number of a signed number stands for it, and that of what a number stands for is the number.
pub fn zigzag_round_trip()
    ensures signed { (z : ℤ) → from_zigzag (to_zigzag z) ≡ z }
    ensures zigzag { (n : ℕ) → to_zigzag (from_zigzag n) ≡ n }
{}

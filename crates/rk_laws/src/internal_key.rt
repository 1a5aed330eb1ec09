//! Laws of internal keys.
ghost use Rattle.std.specs.Prelude.{◌≡◌, ℕ, ◌^◌, ◌<◌, ◌≤◌, List, length, Ok};
ghost use Rattle.std.specs.declared.cmp.Ordering.TheVariants.{Equal};
ghost use Rattle.std.specs.Cmp.{IsTotalOrder};
ghost use Rattle.rk_bytes.specs.declared.model.key.Kind.{Kind};
ghost use Rattle.rk_bytes.specs.Model.Numbers.{AreBytes};
ghost use Rattle.rk_bytes.specs.Model.InternalKey.{internal_key, KeyParts, key_parts, key_cmp};

/// Law: an internal key has the parts that it was made of, and the parts that are read of a key make it.
pub fn key_round_trip()
    ensures key { (user : List ℕ) (sequence : ℕ) (kind : Kind) → sequence < 2 ^ 56 → key_parts (internal_key user sequence kind) ≡ Ok (record { user = user; sequence = sequence; kind = kind }) }
    ensures parts { (key : List ℕ) (parts : KeyParts) → AreBytes key → key_parts key ≡ Ok parts → internal_key parts.user parts.sequence parts.kind ≡ key }
{}

/// Law: internal keys are in a total order, in which no two keys of 8 bytes at least stand at one place.
pub fn key_order()
    ensures total { IsTotalOrder key_cmp }
    ensures only_equal { (a b : List ℕ) → 8 ≤ length a → 8 ≤ length b → AreBytes a → AreBytes b → key_cmp a b ≡ Equal → a ≡ b }
{}

//! The families of a state, in rising id.
ghost use Rattle.std.specs.Prelude.{◌≡◌, find, bytes_eq, option_map, OnOk, OnErr};
ghost use Rattle.std.specs.Bool.{IsFalse};
ghost use Rattle.rk_view.specs.Kept.{AreRising, has_family, with_family};

use rk_bytes::Memory;
use rk_bytes::model::FamilyLine;

/// Whether a family has this id.
pub fn has(families: &[FamilyLine], id: u32) -> bool
    ensures { result ≡ has_family id families.now }
{
    families.iter().any(|line| line.id == id)
}

/// Puts a family in its place. Where memory runs out, it changes nothing.
pub fn insert(families: &mut Vec<FamilyLine>, line: FamilyLine) -> Result<(), Memory>
    requires rising { AreRising families.old.items }
    requires new { IsFalse (has_family line.id families.old.items) }
    ensures rising { AreRising families.new.items }
    ensures ok { OnOk result (families.new.items ≡ with_family line families.old.items) }
    ensures err { OnErr result (families.new.items ≡ families.old.items) }
{
    let id = line.id;
    let place = families.as_slice().partition_point(|other| other.id < id);
    families.insert(place, line)?;
    Ok(())
}

/// The id of the first family with this name.
pub fn named(families: &[FamilyLine], name: &[u8]) -> Option<u32>
    ensures { result ≡ option_map (λ line. line.id) (find (λ line. bytes_eq line.name name.now) families.now) }
{
    families
        .iter()
        .find(|line| line.name.as_slice() == name)
        .map(|line| line.id)
}

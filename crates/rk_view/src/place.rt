ghost use Rattle.std.specs.Prelude.{◌≡◌};
ghost use Rattle.rk_bytes.specs.Model.InternalKey.{packed_of};
ghost use Rattle.rk_bytes.specs.Model.Records.{end_of, slot_of, slot_cmp};
ghost use Rattle.rk_view.specs.Places.{is_after};

use rk_ikey::{Kind, Record, kind_number};
use std::cmp::Ordering;

/// A place among records that stand in the order of their slots: behind those of a family's key whose
/// numbers aren't below a limit.
#[derive(Clone, Copy, Debug)]
pub struct Place<'a> {
    pub family: u32,
    pub user: &'a [u8],
    pub below: u128,
}

impl Place<'_> {
    /// Whether the record comes after the place.
    pub fn is_before(&self, later: &Record) -> bool
        ensures { result ≡ is_after self.now.family self.now.user.now self.now.below later.now }
    {
        self.family
            .cmp(&later.family)
            .then(self.user.cmp(later.key.as_slice()))
            .then(number(later).cmp(&self.below))
            .is_lt()
    }
}

/// How the slots of two records are ordered.
#[tactic(auto, unfolding(rk_bytes::specs::Model::Records::slot_cmp))]
pub fn cmp_slots(a: &Record, b: &Record) -> Ordering
    ensures { result ≡ slot_cmp (slot_of a.now) (slot_of b.now) }
{
    a.family
        .cmp(&b.family)
        .then(a.key.as_slice().cmp(b.key.as_slice()))
        .then(number(b).cmp(&number(a)))
        .then(end(a).cmp(end(b)))
}

/// The number after the user key in the record's internal key.
pub fn number(of: &Record) -> u128
    ensures { result ≡ packed_of of.now.sequence of.now.kind }
{
    u128::from(of.sequence) * 256 + u128::from(kind_number(of.kind))
}

/// The end of a range deletion; nothing of another kind.
fn end(of: &Record) -> &[u8]
    ensures { result.now ≡ end_of of.now.kind of.now.value }
{
    match of.kind {
        Kind::RangeDeletion => of.value.as_slice(),
        _ => &[],
    }
}

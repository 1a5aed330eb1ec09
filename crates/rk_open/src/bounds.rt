//! The bounds that are stated for a table's file.
ghost use Rattle.std.specs.Prelude.{◌≡◌, ◌≤◌, ℕ};
ghost use Rattle.std.specs.List.{AllByRecursion};
ghost use Rattle.std.specs.Ordering.{nat_cmp, ordering_then};
ghost use Rattle.std.specs.Cmp.Lexicographic.{slice_cmp};
ghost use Rattle.rk_bytes.specs.Model.InternalKey.{packed_of};
ghost use Rattle.rk_bytes.specs.Model.KeyView.{lies_within, key_of};
ghost use Rattle.rk_bytes.specs.Model.Opening.{are_within};
ghost use Rattle.rk_version.specs.Bounds.{HasWholeBounds};

use rk_bytes::model::FileMeta;
use rk_ikey::{Record, TOP, kind_number, split_key};
use std::cmp::Ordering;

/// Whether all of the records lie within the bounds that are stated for the file, both included.
pub(crate) fn are_within(file: &FileMeta, records: &[Record]) -> bool
    requires bounds { HasWholeBounds file.now }
    requires sequences { AllByRecursion (λ r. r.sequence ≤ TOP) records.now }
    ensures { result ≡ are_within file.now records.now }
{
    for one in records {
        if !is_within(file, one) {
            return false;
        }
    }
    true
}

/// Whether the record lies within the bounds.
fn is_within(file: &FileMeta, one: &Record) -> bool
    requires bounds { HasWholeBounds file.now }
    requires sequence { one.now.sequence ≤ TOP }
    ensures { result ≡ lies_within file.now.smallest file.now.largest (key_of one.now) }
{
    let (least, least_number) = split_key(file.smallest.as_slice());
    let (most, most_number) = split_key(file.largest.as_slice());
    let key = one.key.as_slice();
    let number = number_of(one);
    cmp_parts(least, least_number, key, number).is_le()
        && cmp_parts(key, number, most, most_number).is_le()
}

/// The number that follows the user key in the internal key of a record.
fn number_of(one: &Record) -> u64
    requires { one.now.sequence ≤ TOP }
    ensures { result ≡ packed_of one.now.sequence one.now.kind }
{
    one.sequence * 256 + u64::from(kind_number(one.kind))
}

/// How two internal keys are ordered, of which these are the user keys and the numbers.
fn cmp_parts(user: &[u8], number: u64, other_user: &[u8], other_number: u64) -> Ordering
    ensures { result ≡ ordering_then (slice_cmp nat_cmp user.now other_user.now) (nat_cmp other_number number) }
{
    user.cmp(other_user).then(other_number.cmp(&number))
}

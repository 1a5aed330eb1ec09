//! Numbers that stand for the keys of records in a sort, so that few keys are compared byte by byte.
ghost use Rattle.std.specs.Prelude.{◌≡◌, drop, slice_index};
ghost use Rattle.rk_view.specs.Leads.{lead_of};

use rk_ikey::Record;

/// The 16 bytes of a key from a place on as a number, with zeros behind fewer.
#[tactic(auto, unfolding(crate::specs::Leads::lead_of))]
pub fn lead(key: &[u8], from: usize) -> u128
    ensures { result ≡ lead_of from key.now }
{
    let rest = tail(key, from);
    u128::from_be_bytes([
        byte(rest, 0),
        byte(rest, 1),
        byte(rest, 2),
        byte(rest, 3),
        byte(rest, 4),
        byte(rest, 5),
        byte(rest, 6),
        byte(rest, 7),
        byte(rest, 8),
        byte(rest, 9),
        byte(rest, 10),
        byte(rest, 11),
        byte(rest, 12),
        byte(rest, 13),
        byte(rest, 14),
        byte(rest, 15),
    ])
}

/// The bytes from a place on; none where there are fewer.
fn tail(bytes: &[u8], from: usize) -> &[u8]
    ensures { result.now ≡ drop from bytes.now }
{
    if from < bytes.len() {
        &bytes[from..]
    } else {
        &[]
    }
}

/// The byte in a place, or 0 where there is none.
fn byte(bytes: &[u8], at: usize) -> u8
    ensures { result ≡ slice_index bytes.now at }
{
    match bytes.get(at) {
        Some(byte) => *byte,
        None => 0,
    }
}

/// With how many bytes all keys begin alike. What a sort gives doesn't depend on it, only how long it takes.
pub fn shared(records: &[Record]) -> usize {
    let Some(first) = records.first() else {
        return 0;
    };
    let mut shared = first.key.as_slice();
    for record in records {
        if shared.is_empty() {
            return 0;
        }
        shared = common(shared, record.key.as_slice());
    }
    shared.len()
}

/// What two lists of bytes begin with alike.
fn common<'a>(a: &'a [u8], b: &[u8]) -> &'a [u8] {
    let alike = a.iter().zip(b).take_while(|(x, y)| x == y).count();
    a.get(..alike).unwrap_or(a)
}

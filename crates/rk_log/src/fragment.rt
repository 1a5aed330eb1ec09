//! The tests that a log's reader makes at a place of a block, in their order.
ghost use Rattle.std.specs.Prelude.{◌≡◌, ℕ, ◌≤◌, length};
ghost use Rattle.rk_bytes.specs.Model.LogMarks.{LogFile, fragment_len, fragment_mark, unless_recycled, fragment_found, found};
ghost use Rattle.rk_log.specs.Fragments.{mark_at, found_at};

use crate::header::{self, HEADER_LEN};
use rk_bytes::model::GapWhy;

/// What stands at a place of a log.
#[derive(Clone, Copy)]
pub(crate) enum Mark<'b> {
    /// A record's payload.
    Full(&'b [u8]),
    /// The first part of a split record's payload.
    First(&'b [u8]),
    /// A further part of it.
    Middle(&'b [u8]),
    /// The last part of it.
    Last(&'b [u8]),
    /// Bytes that are left out.
    Fault(GapWhy),
    /// The file's end cuts a fragment off.
    Cut,
    /// The file's earlier life begins.
    Stale,
    /// A fragment of a type that isn't supported.
    Unsupported(u8),
}

impl Mark<'_> {
    ghost use Rattle.rk_bytes.specs.Model.LogItems.{begins_record};

    /// Whether the mark begins a record of its own.
    pub(crate) fn begins_record(&self) -> bool
        ensures { (place : ℕ) → result ≡ begins_record (mark_at place self.now) }
    {
        matches!(self, Mark::Full(_) | Mark::First(_))
    }
}

/// What stands at the front of the rest of a block.
pub(crate) enum Found<'b> {
    /// Nothing up to the block's end: padding, or a zero header.
    Nothing,
    /// A mark up to the block's end.
    WholeRest(Mark<'b>),
    /// A mark of so many bytes.
    Fragment(Mark<'b>, usize),
}

/// Makes the tests at the front of the rest of a block. `is_full` says whether the block has its full
/// length: its bytes are left out where those of a shorter one, which the file's end cuts off, are torn.
pub(crate) fn find(number: u64, recycled: bool, is_full: bool, bytes: &[u8]) -> Found<'_>
    ensures { (place : ℕ) → found (record { number = number; recycled = recycled }) is_full place bytes.now ≡ found_at place result }
{
    if bytes.len() < HEADER_LEN {
        return if is_full {
            Found::Nothing
        } else {
            Found::WholeRest(unless_recycled(recycled, Mark::Cut))
        };
    }
    let len = header::fragment_len(bytes);
    if bytes.len() < len {
        let mark = if is_full {
            Mark::Fault(GapWhy::Length)
        } else {
            Mark::Cut
        };
        return Found::WholeRest(unless_recycled(recycled, mark));
    }
    find_fragment(number, recycled, bytes, len)
}

/// Makes the tests of a fragment of this length, which doesn't pass the block's end.
fn find_fragment(number: u64, recycled: bool, bytes: &[u8], len: usize) -> Found<'_>
    requires header { HEADER_LEN ≤ length bytes.now }
    requires len { len ≡ fragment_len bytes.now }
    requires within { len ≤ length bytes.now }
    ensures { (place : ℕ) → fragment_found (record { number = number; recycled = recycled }) place bytes.now ≡ found_at place result }
{
    if header::is_of_another_life(number, recycled, bytes) {
        return Found::WholeRest(Mark::Stale);
    }
    if header::is_zero_header(bytes) {
        return Found::Nothing;
    }
    if !header::has_right_sum(bytes, len) {
        return Found::WholeRest(unless_recycled(recycled, Mark::Fault(GapWhy::Checksum)));
    }
    let kind = bytes[6];
    if header::is_unsupported(kind) {
        return Found::WholeRest(Mark::Unsupported(kind));
    }
    Found::Fragment(fragment_mark(recycled, bytes, len), len)
}

/// The mark of a fragment with the right checksum, of a supported type and of this length.
fn fragment_mark(recycled: bool, bytes: &[u8], len: usize) -> Mark<'_>
    requires header { HEADER_LEN ≤ length bytes.now }
    requires len { len ≡ fragment_len bytes.now }
    requires within { len ≤ length bytes.now }
    ensures { (number place : ℕ) → fragment_mark (record { number = number; recycled = recycled }) place bytes.now ≡ mark_at place result }
{
    let kind = bytes[6];
    if header::is_recyclable(kind) && !recycled {
        return Mark::Fault(GapWhy::Mixed);
    }
    let payload = &bytes[header::header_len(kind)..len];
    let legacy_kind = if header::is_recyclable(kind) {
        kind - 4
    } else {
        kind
    };
    match legacy_kind {
        1 => Mark::Full(payload),
        2 => Mark::First(payload),
        3 => Mark::Middle(payload),
        4 => Mark::Last(payload),
        _ => unless_recycled(recycled, Mark::Fault(GapWhy::UnknownType)),
    }
}

/// The mark, or that the file's earlier life begins here, where the file is recycled.
fn unless_recycled(recycled: bool, mark: Mark<'_>) -> Mark<'_>
    ensures { (number place : ℕ) → mark_at place result ≡ unless_recycled (record { number = number; recycled = recycled }) (mark_at place mark.entry) place }
{
    if recycled { Mark::Stale } else { mark }
}

//! A walk over the records of one data block.
ghost use Rattle.std.specs.Prelude.{◌≡◌, ◌≤◌, ℕ, List, Option, Result, length, IfOk, IfErr, IfSome, OnOk};
ghost use Rattle.std.specs.Ordering.{is_gt};
ghost use Rattle.std.specs.Option.{ForSome};
ghost use Rattle.rk_bytes.specs.Model.BlockEntries.{Entry};
ghost use Rattle.rk_bytes.specs.Model.InternalKey.{key_parts, key_cmp};
ghost use Rattle.rk_bytes.specs.Model.TableStatus.{TableFault, DataEntry, entry_after, is_above};
ghost use Rattle.rk_block.specs.Raw.{key_after};
ghost use Rattle.rk_table.specs.Told.{Tells, value_of};
ghost use Rattle.rk_table.specs.Walks.{entry_made, before_of, key_kept, IsFresh, IsFault, told_with, Begins, Steps, IsWalk};

use crate::fault::{block_fault, damaged};
use crate::{TableWhat, TableWhy, WalkErr};
use rk_block::{KeyBuf, RawEntry, TestedEntries};
use rk_bytes::model::{KeyFault, Kind};
use rk_ikey::{cmp_keys, parse_key};
use std::alloc::Global;
use std::cmp::Ordering;

/// How many bytes follow the user key in an internal key.
const KEY_NUMBER_LEN: usize = 8;

/// What a data record says beside its key.
#[derive(Clone, Copy, Debug)]
pub(crate) struct Checked<'a> {
    pub(crate) sequence: u64,
    pub(crate) kind: Kind,
    pub(crate) value: &'a [u8],
}

/// Where the key of the record before the next one is kept.
#[derive(Clone, Copy, Debug)]
pub(crate) enum LastKey {
    /// There is no such record.
    Nowhere,
    /// It is that of a block before this one.
    Before,
    /// It is that of the entry before in this block.
    Here,
}

/// The records of a data block that weren't handed out yet, in one walk with the tests of the block and of its keys.
#[derive(Debug, Drop)]
pub(crate) struct Walk<'a> {
    /// The block's place.
    place: u64,
    entries: TestedEntries<'a>,
    /// The key of the entry before in this block. Empty before the first.
    key: KeyBuf,
    /// The key of the last record of the blocks before, if there is one, until a record was handed out.
    before: KeyBuf,
    last: LastKey,
}

impl<'a> Walk<'a> {
    /// Begins with the block at this place, whose records follow this key.
    pub(crate) fn new(
        alloc: Global,
        place: u64,
        before: Option<&[u8]>,
        block: &'a [u8],
    ) -> Result<Walk<'a>, WalkErr>
        requires { ForSome before (λ key. 8 ≤ length key.now) }
        ensures { Begins place (value_of before.entry) block.now result }
    {
        let entries = match TestedEntries::new(block) {
            Ok(entries) => entries,
            Err(fault) => return Err(block_fault(place, fault)),
        };
        let mut kept = KeyBuf::new(alloc);
        let last = match before {
            Some(key) => {
                keep(&mut kept, key)?;
                LastKey::Before
            }
            None => LastKey::Nowhere,
        };
        Ok(Walk {
            place,
            entries,
            key: KeyBuf::new(alloc),
            before: kept,
            last,
        })
    }

    /// The next record, or `None` where none is left. Its key is then that of the walk. A fault of the block
    /// behind a record comes before the record's own.
    pub(crate) fn next(&mut self) -> Result<Option<Checked<'a>>, WalkErr>
        requires { IsWalk self.old }
        ensures { Steps self.old result self.new }
    {
        let entry = match self.entries.next_entry() {
            Ok(Some(entry)) => entry,
            Ok(None) => return Ok(None),
            Err(fault) => return Err(block_fault(self.place, fault)),
        };
        let is_later = follows(self.last, self.key.as_slice(), &mut self.before, &entry)?;
        if self.key.step(&entry).is_err() {
            return Err(WalkErr::Memory);
        }
        match checked_key(self.place, is_later, self.key.as_slice()) {
            Ok((sequence, kind)) => {
                self.last = LastKey::Here;
                Ok(Some(Checked {
                    sequence,
                    kind,
                    value: entry.value,
                }))
            }
            Err(error) => Err(first_fault(self.place, &mut self.entries, error)),
        }
    }

    /// The key of the last record before those that are left, if there is one.
    pub(crate) fn last_key(&self) -> Option<&[u8]>
        requires { IsWalk self.now }
        ensures value { value_of result ≡ before_of self.now }
        ensures long { IfSome result (λ key. 8 ≤ length key.now) }
    {
        match self.last {
            LastKey::Nowhere => None,
            LastKey::Before => Some(self.before.as_slice()),
            LastKey::Here => Some(self.key.as_slice()),
        }
    }

    /// The key of the record that was handed out last.
    pub(crate) fn key(&self) -> &[u8]
        ensures { result.now ≡ self.now.key }
    {
        self.key.as_slice()
    }
}

/// The first fault of a block at this place, of which an entry's record has this one: that of the entries that are
/// left, if they have one.
fn first_fault(place: u64, entries: &mut TestedEntries<'_>, error: WalkErr) -> WalkErr
    ensures { (told : List (Entry (List ℕ)) → Result (List DataEntry) TableFault) → ((more : List (Entry (List ℕ))) → IsFault error (told more)) → IsFault result (told_with place entries.old.left told) }
{
    match entries.test_rest() {
        Ok(()) => error,
        Err(fault) => block_fault(place, fault),
    }
}

/// Makes the key that is kept this one.
fn keep(kept: &mut KeyBuf, key: &[u8]) -> Result<(), WalkErr>
    ensures ok { OnOk result (kept.new ≡ key.now) }
    ensures err { IfErr result (λ error. error ≡ WalkErr.Memory) }
{
    let whole = RawEntry {
        shared: 0,
        rest: key,
        value: &[],
    };
    match kept.step(&whole) {
        Ok(()) => Ok(()),
        Err(_) => Err(WalkErr::Memory),
    }
}

/// Whether the key of an entry, after this key in its block, is above that of the record before. Of an entry's key
/// of fewer than 8 bytes nothing is said. Where the record before is in this block, the key that was kept may go.
fn follows(
    last: LastKey,
    key: &[u8],
    before: &mut KeyBuf,
    entry: &RawEntry<'_>,
) -> Result<bool, WalkErr>
    requires shared { entry.now.shared ≤ length key.now }
    requires long { IfSome (key_kept last before.old key.now) (λ key. 8 ≤ length key) }
    requires fresh { IsFresh last key.now }
    ensures later { IfOk result (λ is_later. 8 ≤ length (key_after key.now entry.now) → is_later ≡ is_above key_cmp (key_after key.now entry.now) (key_kept last before.old key.now)) }
    ensures err { IfErr result (λ error. error ≡ WalkErr.Memory) }
{
    match last {
        LastKey::Nowhere => Ok(true),
        LastKey::Before => Ok(is_greater(entry.rest, before.as_slice())),
        LastKey::Here => follows_here(key, before, entry),
    }
}

/// Whether the key of an entry is above the key before it in its block. What both begin with isn't compared where
/// 8 bytes at least follow it in each.
fn follows_here(key: &[u8], buffer: &mut KeyBuf, entry: &RawEntry<'_>) -> Result<bool, WalkErr>
    requires shared { entry.now.shared ≤ length key.now }
    requires long { 8 ≤ length key.now }
    ensures later { IfOk result (λ is_later. 8 ≤ length (key_after key.now entry.now) → is_later ≡ is_gt (key_cmp (key_after key.now entry.now) key.now)) }
    ensures err { IfErr result (λ error. error ≡ WalkErr.Memory) }
{
    let (shared, rest) = key.split_at(entry.shared);
    if rest.len() >= KEY_NUMBER_LEN && entry.rest.len() >= KEY_NUMBER_LEN {
        return Ok(is_greater(entry.rest, rest));
    }
    keep(buffer, shared)?;
    match buffer.step(entry) {
        Ok(()) => Ok(is_greater(buffer.as_slice(), key)),
        Err(_) => Err(WalkErr::Memory),
    }
}

/// Whether a key is above another one of at least 8 bytes. A key of fewer than 8 bytes is above none.
fn is_greater(key: &[u8], other: &[u8]) -> bool
    requires { 8 ≤ length other.now }
    ensures { 8 ≤ length key.now → result ≡ is_gt (key_cmp key.now other.now) }
{
    key.len() >= KEY_NUMBER_LEN && cmp_keys(key, other) == Ordering::Greater
}

/// The sequence number and the kind of a data record under this key, in a block at this place, if it may
/// follow the key before it, which is told for a key of at least 8 bytes.
fn checked_key(place: u64, is_later: bool, key: &[u8]) -> Result<(u64, Kind), WalkErr>
    ensures told { (before : Option (List ℕ)) (entry : Entry (List ℕ)) → entry.key ≡ key.now → (8 ≤ length key.now → is_later ≡ is_above key_cmp key.now before) → Tells (entry_made entry result) (entry_after place before entry (key_parts key.now)) }
    ensures long { OnOk result (8 ≤ length key.now) }
{
    let parsed = match parse_key(key) {
        Ok(parsed) => parsed,
        Err(KeyFault::UnsupportedKind(kind)) => {
            return Err(WalkErr::Unsupported(TableWhat::RecordKind(kind)));
        }
        Err(_) => return Err(damaged(TableWhy::BadKey, place)),
    };
    if parsed.kind == Kind::RangeDeletion {
        return Err(damaged(TableWhy::BadKey, place));
    }
    if !is_later {
        return Err(damaged(TableWhy::BadOrder, place));
    }
    Ok((parsed.sequence, parsed.kind))
}

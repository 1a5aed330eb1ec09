//! Logs of a few records. Each checksum was computed by a program of another language.
ghost use Rattle.std.specs.Prelude.{◌≡◌, Some, IfOk};

use rk_bytes::model::{FamilyState, FileMeta, Version};
use rk_bytes::{Bytes, Memory, Seq};
use rk_log::{BLOCK_LEN, GapWhy};
use rk_walmode::*;
use std::alloc::{AllocGlobal, Global};
use std::process::Abort;
use std::test::Fail;

/// A batch that puts `a` at sequence number 1, and batches that put `b` at 2 and at 3.
const PUT_A: &[u8] = b"\xe9\x9f\x78\x19\x11\0\x01\x01\0\0\0\0\0\0\0\x01\0\0\0\x01\x01a\x011";

const PUT_B: &[u8] = b"\x8f\x72\xbc\x7a\x11\0\x01\x02\0\0\0\0\0\0\0\x01\0\0\0\x01\x01b\x012";

const PUT_B_AT_3: &[u8] = b"\x56\x23\x0a\x03\x11\0\x01\x03\0\0\0\0\0\0\0\x01\0\0\0\x01\x01b\x012";

/// The second one with a wrong checksum, and without its last byte.
const DAMAGED: &[u8] = b"\0\0\0\0\x11\0\x01\x02\0\0\0\0\0\0\0\x01\0\0\0\x01\x01b\x012";

const CUT: &[u8] = b"\x8f\x72\xbc\x7a\x11\0\x01\x02\0\0\0\0\0\0\0\x01\0\0\0\x01\x01b\x01";

/// The first one in a recycled file of log 5, and a record of the log 4 that it was before.
const RECYCLED: &[u8] =
    b"\x4b\x67\xbb\xf7\x11\0\x05\x05\0\0\0\x01\0\0\0\0\0\0\0\x01\0\0\0\x01\x01a\x011";

const STALE: &[u8] = b"\0\0\0\0\x11\0\x05\x04\0\0\0\x02\0\0\0\0\0\0\0\x01\0\0\0\x01\x01b\x012";

const MODES: [Mode; 4] = [
    Mode::TolerateTail,
    Mode::Absolute,
    Mode::PointInTime,
    Mode::SkipAny,
];

/// The default family, and one with a table and this log number. The last sequence number is 0.
fn two_families(alloc: Global, log: u64) -> Result<Version, Memory>
    ensures { IfOk result (λ version. version.last_sequence ≡ Some 0) }
{
    let mut files = Seq::new(alloc);
    files.push(FileMeta {
        number: 4,
        level: 0,
        size: 9,
        smallest: Bytes::new(alloc),
        largest: Bytes::new(alloc),
        seqs: None,
    })?;
    let mut families = Seq::new(alloc);
    families.push(FamilyState {
        id: 0,
        name: Bytes::copy_of(alloc, b"default")?,
        log: 3,
        files: Seq::new(alloc),
    })?;
    families.push(FamilyState {
        id: 1,
        name: Bytes::copy_of(alloc, b"one")?,
        log,
        files,
    })?;
    Ok(Version {
        families,
        log_seen: true,
        next_file: Some(9),
        last_sequence: Some(0),
        least_log: 0,
        greatest_family: 1,
        wals: Seq::new(alloc),
    })
}

/// How many records are replayed, the sequence number that is expected then, and where replay stopped.
type Outcome = Result<(usize, u64, Option<u64>), WalErr>;

fn outcome(alloc: Global, logs: &[LogFile], version: &Version, mode: Mode) -> Result<Outcome, Fail>
    requires { version.now.last_sequence ≡ Some 0 }
{
    match replay(alloc, logs, version, mode) {
        Ok(replayed) => Ok(Ok((
            replayed.records.as_slice().len(),
            replayed.expected,
            replayed.stopped,
        ))),
        Err(WalErr::Memory) => Err(Fail::new("memory ran out")),
        Err(why) => Ok(Err(why)),
    }
}

/// The logs of these records come to this in each mode, where the second family has this log number.
fn assert_replayed<R: Abort + AllocGlobal>(
    rt: &R,
    logs: &[(u64, &[u8], &[u8])],
    log: u64,
    wanted: &[(Mode, Outcome)],
) -> Result<(), Fail> {
    let alloc = rt.alloc();
    let version = two_families(alloc, log)?;
    let mut files = Vec::new(alloc);
    for (number, first, second) in logs {
        let mut bytes = Bytes::copy_of(alloc, first)?;
        bytes.append(second)?;
        files.push(LogFile {
            number: *number,
            bytes,
        })?;
    }
    for (mode, answer) in wanted {
        assert_eq!(rt; outcome(alloc, files.as_slice(), &version, *mode)?, *answer);
    }
    Ok(())
}

fn corrupt(log: u64, why: WalWhy) -> Outcome {
    Err(WalErr::Corrupt {
        log,
        place: 24,
        why,
    })
}

#[test]
fn a_torn_end_is_refused_in_one_mode(rt: HostRuntime) -> Result<(), Fail> {
    assert_replayed(
        &rt,
        &[(3, PUT_A, CUT)],
        3,
        &[
            (Mode::TolerateTail, Ok((1, 2, None))),
            (Mode::Absolute, corrupt(3, WalWhy::Torn)),
            (Mode::PointInTime, Ok((1, 2, Some(3)))),
            (Mode::SkipAny, Ok((1, 2, None))),
        ],
    )
}

#[test]
fn replay_goes_on_at_the_expected_sequence_number(rt: HostRuntime) -> Result<(), Fail> {
    let refused = corrupt(5, WalWhy::Gap(GapWhy::Checksum));
    assert_replayed(
        &rt,
        &[(5, PUT_A, DAMAGED), (7, PUT_B, b"")],
        5,
        &[
            (Mode::TolerateTail, refused),
            (Mode::Absolute, refused),
            (Mode::PointInTime, Ok((2, 3, None))),
            (Mode::SkipAny, Ok((2, 3, None))),
        ],
    )?;
    assert_replayed(
        &rt,
        &[(5, PUT_A, DAMAGED), (7, PUT_B_AT_3, b"")],
        5,
        &[
            (Mode::TolerateTail, refused),
            (Mode::Absolute, refused),
            (Mode::PointInTime, Ok((1, 2, Some(5)))),
            (Mode::SkipAny, Ok((2, 4, None))),
        ],
    )
}

#[test]
fn a_family_is_ahead_of_damage_alone(rt: HostRuntime) -> Result<(), Fail> {
    let ahead = Err(WalErr::FamilyAhead { family: 1, log: 5 });
    assert_replayed(
        &rt,
        &[(5, PUT_A, DAMAGED), (7, PUT_B_AT_3, b"")],
        8,
        &[(Mode::PointInTime, ahead)],
    )?;
    assert_replayed(
        &rt,
        &[(5, RECYCLED, STALE), (7, PUT_B_AT_3, b"")],
        8,
        &[(Mode::PointInTime, Ok((1, 2, Some(5))))],
    )
}

/// The keys that are replayed of a log of a whole block and another one.
fn fed_in_blocks(
    alloc: Global,
    version: &Version,
    mode: Mode,
    first: &[u8],
    rest: &[u8],
) -> Result<Bytes, WalErr>
    requires { version.now.last_sequence ≡ Some 0 }
{
    if first.len() != BLOCK_LEN || rest.len() > BLOCK_LEN {
        return Err(WalErr::Memory);
    }
    let mut run = ReplayRun::new(alloc, version, mode);
    run.feed(3, first, false)?;
    run.feed(3, rest, true)?;
    let replayed = run.finish()?;
    let mut keys = Bytes::new(alloc);
    for record in replayed.records.as_slice() {
        if keys.append(record.key.as_slice()).is_err() {
            return Err(WalErr::Memory);
        }
    }
    Ok(keys)
}

#[test]
fn a_log_is_fed_in_two_blocks(rt: HostRuntime) -> Result<(), Fail> {
    let alloc = rt.alloc();
    let version = two_families(alloc, 0)?;
    let zeros = vec![in alloc; 0u8; 32_744]?;
    let mut first = Bytes::copy_of(alloc, PUT_A)?;
    first.append(zeros.as_slice())?;
    for mode in MODES {
        let keys = match fed_in_blocks(alloc, &version, mode, first.as_slice(), PUT_B) {
            Ok(keys) => keys,
            Err(_) => return Err(Fail::new("replay was refused")),
        };
        assert_eq!(rt; keys.as_slice(), b"ab".as_slice());
    }
    Ok(())
}

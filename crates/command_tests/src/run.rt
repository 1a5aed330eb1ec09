//! Whole runs over a disk and an output in memory.
use rk_bytes::{Memory, Text};
use rk_disk::{LyingDisk, MemDisk, MemSink};
use rk_ldb::{Status, run};
use std::alloc::Global;
use std::process::Abort;
use std::test::Fail;

const USAGE: &str = "usage: scan get families manifest_dump dump_wal check repair sst drill\n";

/// What is written of the log of two records.
const WHOLE: &str =
    "record 0 17\n  batch 1 1\n  put 0 \"a\"@1 => \"1\"\nrecord 24 17\n  batch 2 1\n  put 0 \"b\"@2 => \"2\"\nend 48 Clean\n";

/// Where each of these lines ends, after the begin of the first.
const ENDS: [usize; 8] = [0, 12, 24, 45, 58, 70, 91, 104];

/// A log of two records, each a write batch of one put. Its checksums are computed elsewhere.
pub(crate) const TWO_RECORDS: [u8; 48] = [
    0xe9, 0x9f, 0x78, 0x19, 0x11, 0x00, 0x01, 0x01, 0x00, 0x00, 0x00, 0x00, 0x00, 0x00, 0x00, 0x01,
    0x00, 0x00, 0x00, 0x01, 0x01, 0x61, 0x01, 0x31, 0x8f, 0x72, 0xbc, 0x7a, 0x11, 0x00, 0x01, 0x02,
    0x00, 0x00, 0x00, 0x00, 0x00, 0x00, 0x00, 0x01, 0x00, 0x00, 0x00, 0x01, 0x01, 0x62, 0x01, 0x32,
];

/// What a run over these files wrote, and its status. The calls with these numbers fail.
pub(crate) fn outcome(
    alloc: Global,
    files: &[(&str, &[u8])],
    failing: (Option<u64>, Option<u64>),
    words: &[&str],
) -> Result<(Status, MemDisk, MemSink), Memory> {
    let mut disk = MemDisk::new(alloc)?;
    for (name, bytes) in files {
        disk.put_file(name, bytes)?;
    }
    if let Some(call) = failing.0 {
        disk.fail_at(call)?;
    }
    let mut out = MemSink::new(alloc);
    if let Some(call) = failing.1 {
        out.fail_at(call)?;
    }
    let mut texts = Vec::new(alloc);
    for word in words {
        texts.push(Text::copy_of(alloc, word)?)?;
    }
    let status = run(alloc, texts.as_slice(), &mut disk, &mut out);
    Ok((status, disk, out))
}

/// Runs a command over files, and compares what was written and the status.
pub(crate) fn expect<R: Abort + AllocGlobal>(
    rt: &R,
    files: &[(&str, &[u8])],
    words: &[&str],
    lines: &str,
    wanted: Status,
) -> Result<(), Fail> {
    let (status, _, out) = outcome(rt.alloc(), files, (None, None), words)?;
    assert_eq!(rt; out.taken(), lines.as_bytes(), "of {words:?}");
    assert_eq!(rt; status, wanted);
    Ok(())
}

/// Dumps one log, and compares likewise.
fn expect_dump<R: Abort + AllocGlobal>(
    rt: &R,
    file: Option<(&str, &[u8])>,
    number: &str,
    lines: &str,
    wanted: Status,
) -> Result<(), Fail> {
    let words = ["dump_wal", number];
    match file {
        Some(file) => expect(rt, &[file], &words, lines, wanted),
        None => expect(rt, &[], &words, lines, wanted),
    }
}

/// Dumps the log of two records while calls fail, and compares likewise.
fn expect_fault<R: Abort + AllocGlobal>(
    rt: &R,
    failing: (Option<u64>, Option<u64>),
    lines: &str,
    wanted: Status,
) -> Result<u64, Fail> {
    let files = [("000003.log", TWO_RECORDS.as_slice())];
    let (status, disk, out) = outcome(rt.alloc(), &files, failing, &["dump_wal", "3"])?;
    assert_eq!(rt; out.taken(), lines.as_bytes(), "failing at {failing:?}");
    assert_eq!(rt; status, wanted);
    assert_eq!(rt; disk.file("000003.log"), Some(TWO_RECORDS.as_slice()));
    Ok(disk.calls())
}

#[test]
fn words_in_no_grammar_are_answered_with_the_usage_line(rt: HostRuntime) -> Result<(), Fail> {
    let cases: [&[&str]; 15] = [
        &[],
        &[""],
        &["dump_wal"],
        &["dump_wal", ""],
        &["dump_wal", "03"],
        &["dump_wal", "+3"],
        &["dump_wal", "-3"],
        &["dump_wal", " 3"],
        &["dump_wal", "3x"],
        &["dump_wal", "18446744073709551616"],
        &["dump_wal", "3", "4"],
        &["dump_wal", "--hex", "3"],
        &["dump_wal", "3", "--hex", "--hex"],
        &["dump", "3"],
        &["3", "dump_wal"],
    ];
    for words in cases {
        let (status, disk, out) = outcome(rt.alloc(), &[], (None, None), words)?;
        assert_eq!(rt; status, Status::Usage, "of {words:?}");
        assert_eq!(rt; out.taken(), USAGE.as_bytes());
        assert_eq!(rt; disk.calls(), 0);
    }
    Ok(())
}

#[test]
fn an_absent_log_is_refused(rt: HostRuntime) -> Result<(), Fail> {
    let none = Status::Refused;
    expect_dump(&rt, None, "3", "refused: NoLog 3\n", none)?;
    let other = Some(("000004.log", b"".as_slice()));
    expect_dump(&rt, other, "3", "refused: NoLog 3\n", none)?;
    let most = "18446744073709551615";
    expect_dump(
        &rt,
        None,
        most,
        "refused: NoLog 18446744073709551615\n",
        none,
    )
}

#[test]
fn a_log_is_dumped(rt: HostRuntime) -> Result<(), Fail> {
    let done = Status::Done;
    let empty = b"".as_slice();
    let records = TWO_RECORDS.as_slice();
    let compressed = b"\x77\x40\xbd\xb3\x00\x00\x09".as_slice();
    expect_dump(&rt, Some(("000003.log", empty)), "3", "end 0 Clean\n", done)?;
    expect_dump(&rt, Some(("000003.log", records)), "3", WHOLE, done)?;
    expect_dump(
        &rt,
        Some(("000003.log", compressed)),
        "3",
        "end 0 Unsupported 9\n",
        done,
    )?;
    expect_dump(&rt, Some(("000000.log", empty)), "0", "end 0 Clean\n", done)?;
    let first = "record 0 17\n  batch 1 1\n  put 0 \"a\"@1 => \"1\"\nend 24 Clean\n";
    expect_dump(
        &rt,
        Some(("12345678.log", &records[..24])),
        "12345678",
        first,
        done,
    )
}

/// A block whose first header says a payload of 32,762 bytes, which passes the block's end.
#[test]
fn a_payload_past_the_end_is_a_gap_or_torn(rt: HostRuntime) -> Result<(), Fail> {
    let mut block = vec![in rt.alloc(); 0u8; 32_768]?;
    block[4] = 0xfa;
    block[5] = 0x7f;
    block[6] = 1;
    let full = block.as_slice();
    let gap = "gap 0 Length\nend 32768 Clean\n";
    expect_dump(&rt, Some(("000003.log", full)), "3", gap, Status::Done)?;
    block.truncate(32_767);
    let short = block.as_slice();
    expect_dump(
        &rt,
        Some(("000003.log", short)),
        "3",
        "end 0 Torn\n",
        Status::Done,
    )
}

/// The disk is asked for the size, and then once for the bytes.
#[test]
fn each_call_of_the_disk_may_fail(rt: HostRuntime) -> Result<(), Fail> {
    let fault = "fault: disk\n";
    let calls = expect_fault(&rt, (Some(1), None), fault, Status::DiskFault)?;
    assert_eq!(rt; calls, 1);
    let calls = expect_fault(&rt, (Some(2), None), fault, Status::DiskFault)?;
    assert_eq!(rt; calls, 2);
    let calls = expect_fault(&rt, (Some(3), None), WHOLE, Status::Done)?;
    assert_eq!(rt; calls, 2);
    Ok(())
}

/// The output takes seven lines.
#[test]
fn each_call_of_the_output_may_fail(rt: HostRuntime) -> Result<(), Fail> {
    for (lines, end) in ENDS.iter().enumerate() {
        let status = if lines < 7 {
            Status::SinkFault
        } else {
            Status::Done
        };
        let files = [("000003.log", TWO_RECORDS.as_slice())];
        let failing = (None, Some(lines as u64 + 1));
        let (ended, _, out) = outcome(rt.alloc(), &files, failing, &["dump_wal", "3"])?;
        assert_eq!(rt;
            out.taken(),
            &WHOLE.as_bytes()[..*end],
            "after {lines} lines"
        );
        assert_eq!(rt; ended, status);
    }
    Ok(())
}

#[test]
fn bytes_are_shown_as_asked_for(rt: HostRuntime) -> Result<(), Fail> {
    let files = [("000003.log", &TWO_RECORDS[24..])];
    let words = ["dump_wal", "3", "--hex"];
    let lines = "record 0 17\n  batch 2 1\n  put 0 0x62@2 => 0x32\nend 24 Clean\n";
    expect(&rt, &files, &words, lines, Status::Done)
}

/// A record of one byte is no batch. Its checksum is computed elsewhere.
#[test]
fn what_is_no_batch_is_said(rt: HostRuntime) -> Result<(), Fail> {
    let record = [0xb5, 0xcd, 0x0b, 0xa2, 1, 0, 1, b'a'];
    let lines = "record 0 1\n  bad TooSmall\nend 8 Clean\n";
    expect_dump(
        &rt,
        Some(("000003.log", record.as_slice())),
        "3",
        lines,
        Status::Done,
    )
}

/// Two records of zeros, the first of which ends six bytes before the first block does. Their checksums
/// are computed elsewhere.
#[test]
fn a_block_is_written_before_the_next_one_is_read(rt: HostRuntime) -> Result<(), Fail> {
    let alloc = rt.alloc();
    let mut log = vec![in alloc; 0u8; 32_776]?;
    log[..7].copy_from_slice(&[0x3d, 0xc5, 0x53, 0x47, 0xf3, 0x7f, 1]);
    log[32_768..32_775].copy_from_slice(&[0x5f, 0xb0, 0xce, 0x81, 1, 0, 1]);
    let mut disk = MemDisk::new(alloc)?;
    disk.put_file("000003.log", log.as_slice())?;
    disk.fail_from("000003.log", 32_768)?;
    let mut out = MemSink::new(alloc);
    let words = [
        Text::copy_of(alloc, "dump_wal")?,
        Text::copy_of(alloc, "3")?,
    ];
    let status = run(alloc, &words, &mut disk, &mut out);
    let lines = "record 0 32755\n  bad BadRecord 32754\nfault: disk\n";
    assert_eq!(rt; out.taken(), lines.as_bytes());
    assert_eq!(rt; status, Status::DiskFault);
    Ok(())
}

#[test]
fn a_size_that_only_is_said_takes_no_memory(rt: HostRuntime) -> Result<(), Fail> {
    let alloc = rt.alloc();
    let mut disk = LyingDisk::new(alloc);
    disk.say("000003.log", 1 << 62, b"")?;
    let mut out = MemSink::new(alloc);
    let words = [
        Text::copy_of(alloc, "dump_wal")?,
        Text::copy_of(alloc, "3")?,
    ];
    let status = run(alloc, &words, &mut disk, &mut out);
    assert_eq!(rt; out.taken(), b"end 0 Clean\n".as_slice());
    assert_eq!(rt; status, Status::Done);
    Ok(())
}

#[test]
fn the_first_fault_gives_the_status(rt: HostRuntime) -> Result<(), Fail> {
    // The output fails at the line that names the disk's fault.
    expect_fault(&rt, (Some(1), Some(1)), "", Status::DiskFault)?;
    expect_fault(&rt, (Some(2), Some(1)), "", Status::DiskFault)?;
    // The disk would have failed at a call that isn't made.
    expect_fault(&rt, (Some(3), Some(1)), "", Status::SinkFault)?;
    Ok(())
}

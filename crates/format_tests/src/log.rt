// What is expected is read off the format's description. Every stored sum was computed by a program
// of another language.
use rk_log::*;
use std::alloc::AllocGlobal;
use std::process::Abort;
use std::test::Fail;

// The full record of the payload "a".
const A: [u8; 8] = [0xB5, 0xCD, 0x0B, 0xA2, 1, 0, 1, b'a'];

// The full record of the payload "b".
const B: [u8; 8] = [0x54, 0xAF, 0xE3, 0xBA, 1, 0, 1, b'b'];

// Zeros that payloads are parts of.
const ZEROS: [u8; BLOCK_LEN] = [0; BLOCK_LEN];

// An item, with the length of a record's payload, which has zeros alone unless it is one byte. Items
// themselves aren't compared.
#[derive(Debug, PartialEq, Drop)]
enum Told {
    Rec(usize, u64),
    Gap(GapWhy, u64),
    End(EndKind, u64),
}

fn seen(item: &Item<'_>) -> Told {
    match item {
        Item::Rec(piece, place) => Told::Rec(piece.as_slice().len(), *place),
        Item::Gap(why, place) => Told::Gap(*why, *place),
        Item::End(kind, place) => Told::End(*kind, *place),
    }
}

// The log of number 9 has these items and then this end, which stays.
fn assert_items<R: Abort + AllocGlobal>(
    rt: &R,
    log: &[u8],
    items: &[Told],
    kind: EndKind,
    place: usize,
) -> Result<(), Fail> {
    let end = Told::End(kind, place as u64);
    let mut reader = LogReader::new(log, 9);
    for wanted in items {
        let item = reader.next(rt.alloc())?;
        assert_eq!(rt; seen(&item), *wanted);
    }
    for _ in 0..2 {
        let item = reader.next(rt.alloc())?;
        assert_eq!(rt; seen(&item), end);
    }
    Ok(())
}

// Puts a fragment at the end of the log.
fn append(
    log: &mut Vec<u8>,
    stored_sum: u32,
    kind: u8,
    number: Option<u32>,
    payload: &[u8],
) -> Result<(), Fail> {
    let [low, high, ..] = payload.len().to_le_bytes();
    log.extend_from_slice(&stored_sum.to_le_bytes())?;
    log.extend_from_slice(&[low, high, kind])?;
    if let Some(number) = number {
        log.extend_from_slice(&number.to_le_bytes())?;
    }
    log.extend_from_slice(payload)?;
    Ok(())
}

#[test]
fn each_front_of_a_log_with_a_split_record_is_read(rt: HostRuntime) -> Result<(), Fail> {
    let mut log = Vec::new(rt.alloc());
    append(&mut log, 0xB313_04A3, 1, None, &ZEROS[..32_740])?;
    append(&mut log, 0xFEA8_22FE, 2, None, &ZEROS[..14])?;
    append(&mut log, 0xEB4C_2BFD, 4, None, &ZEROS[..16])?;
    let records = [Told::Rec(32_740, 0), Told::Rec(30, 32_747)];
    assert_items(&rt, &[], &[], EndKind::Clean, 0)?;
    for len in 1..log.len() {
        let front = &log.as_slice()[..len];
        if len < 32_747 {
            assert_items(&rt, front, &[], EndKind::Torn, 0)?;
        } else if len == 32_747 {
            assert_items(&rt, front, &records[..1], EndKind::Clean, len)?;
        } else {
            assert_items(&rt, front, &records[..1], EndKind::Torn, 32_747)?;
        }
    }
    assert_items(&rt, log.as_slice(), &records, EndKind::Clean, 32_791)
}

#[test]
fn a_full_block_is_told_from_a_short_one(rt: HostRuntime) -> Result<(), Fail> {
    // one byte more than a block holds
    let mut log = Vec::from_slice(rt.alloc(), &[0, 0, 0, 0, 0xFA, 0x7F, 1])?;
    log.resize(BLOCK_LEN, 0)?;
    let items = [Told::Gap(GapWhy::Length, 0)];
    assert_items(&rt, log.as_slice(), &items, EndKind::Clean, BLOCK_LEN)?;
    log.resize(BLOCK_LEN - 1, 0)?;
    assert_items(&rt, log.as_slice(), &[], EndKind::Torn, 0)
}

#[test]
fn each_type_is_read_as_its_kind_says(rt: HostRuntime) -> Result<(), Fail> {
    for (kind, stored_sum, wanted) in [
        (9, 0x1B7C_C3CC, EndKind::Unsupported(9)),
        (128, 0xDD18_1CF7, EndKind::Unsupported(128)),
        (255, 0x28E4_6D36, EndKind::Unsupported(255)),
    ] {
        let mut log = Vec::new(rt.alloc());
        append(&mut log, stored_sum, kind, None, b"a")?;
        assert_items(&rt, log.as_slice(), &[], wanted, 0)?;
        let mut log = Vec::new(rt.alloc());
        append(&mut log, stored_sum ^ 1, kind, None, b"a")?;
        let items = [Told::Gap(GapWhy::Checksum, 0)];
        assert_items(&rt, log.as_slice(), &items, EndKind::Clean, 8)?;
    }
    for (kind, stored_sum, why) in [
        (0, 0x71E9_B070, GapWhy::UnknownType),
        (12, 0x2E32_4D7D, GapWhy::UnknownType),
        (127, 0x1615_60B1, GapWhy::UnknownType),
        (3, 0x40D7_972F, GapWhy::MissingStart),
        (4, 0xAF61_4364, GapWhy::MissingStart),
        (2, 0x513D_75EA, GapWhy::MissingEnd),
    ] {
        let mut log = Vec::new(rt.alloc());
        append(&mut log, stored_sum, kind, None, b"a")?;
        log.extend_from_slice(&B)?;
        let items = [Told::Gap(why, 0), Told::Rec(1, 8)];
        assert_items(&rt, log.as_slice(), &items, EndKind::Clean, 16)?;
    }
    // a recyclable record in a log that isn't recycled
    let mut log = Vec::from_slice(rt.alloc(), &A)?;
    append(&mut log, 0x4BF3_B340, 5, Some(9), b"a")?;
    log.extend_from_slice(&B)?;
    let items = [
        Told::Rec(1, 0),
        Told::Gap(GapWhy::Mixed, 8),
        Told::Rec(1, 20),
    ];
    assert_items(&rt, log.as_slice(), &items, EndKind::Clean, 28)
}

#[test]
fn a_recycled_log_ends_where_another_life_begins(rt: HostRuntime) -> Result<(), Fail> {
    let mut log = Vec::new(rt.alloc());
    append(&mut log, 0x5847_F416, 5, Some(9), &ZEROS[..12])?;
    append(&mut log, 0x5847_F416, 5, Some(9), &ZEROS[..12])?;
    let items = [Told::Rec(12, 0), Told::Rec(12, 23)];
    assert_items(&rt, log.as_slice(), &items, EndKind::Clean, 46)?;
    // whatever its sum is, and wherever it is cut
    for stored_sum in [0xBEED_DCE7, 0xBEED_DCE6] {
        let mut log = Vec::from_slice(rt.alloc(), log.as_slice())?;
        append(&mut log, stored_sum, 5, Some(4), b"a")?;
        for len in 47..log.len() + 1 {
            assert_items(&rt, &log.as_slice()[..len], &items, EndKind::Stale, 46)?;
        }
    }
    // a record with the older header
    log.extend_from_slice(&A)?;
    assert_items(&rt, log.as_slice(), &items, EndKind::Stale, 46)
}

#[test]
fn a_record_over_three_blocks_is_joined(rt: HostRuntime) -> Result<(), Fail> {
    let mut log = Vec::new(rt.alloc());
    append(&mut log, 0x0598_E68D, 2, None, &ZEROS[..32_761])?;
    append(&mut log, 0x770A_713A, 3, None, &ZEROS[..32_761])?;
    append(&mut log, 0xFD9C_D307, 4, None, &ZEROS[..4_478])?;
    let end = log.len();
    assert_items(
        &rt,
        log.as_slice(),
        &[Told::Rec(70_000, 0)],
        EndKind::Clean,
        end,
    )?;
    // over an older life of the same form, of which a whole block is left
    let mut log = Vec::new(rt.alloc());
    append(&mut log, 0xDCE6_B465, 6, Some(9), &ZEROS[..32_757])?;
    append(&mut log, 0x3074_9F32, 7, Some(9), &ZEROS[..32_757])?;
    append(&mut log, 0xB9F3_5177, 8, Some(9), &ZEROS[..4_486])?;
    let end = log.len();
    append(&mut log, 0xBEED_DCE7, 5, Some(4), b"a")?;
    log.resize(BLOCK_LEN * 4, 0)?;
    assert_items(
        &rt,
        log.as_slice(),
        &[Told::Rec(70_000, 0)],
        EndKind::Stale,
        end,
    )
}

#[test]
fn a_wrong_sum_leaves_out_its_block(rt: HostRuntime) -> Result<(), Fail> {
    let mut log = Vec::from_slice(rt.alloc(), &A)?;
    append(&mut log, 0x513D_75EA, 2, None, b"a")?;
    append(&mut log, 0xA20B_CDB4, 1, None, b"a")?;
    log.extend_from_slice(&A)?;
    log.resize(BLOCK_LEN, 0)?;
    log.extend_from_slice(&B)?;
    let items = [
        Told::Rec(1, 0),
        Told::Gap(GapWhy::Checksum, 16),
        Told::Rec(1, BLOCK_LEN as u64),
    ];
    assert_items(&rt, log.as_slice(), &items, EndKind::Clean, BLOCK_LEN + 8)
}

#[test]
fn a_feed_takes_one_block_after_the_other(rt: HostRuntime) -> Result<(), Fail> {
    let mut first = Vec::new(rt.alloc());
    append(&mut first, 0x4753_C53D, 1, None, &ZEROS[..32_755])?;
    first.resize(BLOCK_LEN, 0)?;
    let mut feed = LogFeed::new(rt.alloc(), 9);
    let item = feed.next(first.as_slice(), false)?;
    assert_eq!(rt; fed(&item), Some(Told::Rec(32_755, 0)));
    let more = feed.next(first.as_slice(), false)?;
    assert_eq!(rt; fed(&more), None);
    let item = feed.next(&B, true)?;
    assert_eq!(rt; fed(&item), Some(Told::Rec(1, 32_768)));
    let end = feed.next(&B, true)?;
    assert_eq!(rt; fed(&end), Some(Told::End(EndKind::Clean, 32_776)));
    Ok(())
}

fn fed(item: &FeedItem<'_>) -> Option<Told> {
    match item {
        FeedItem::Item(item) => Some(seen(item)),
        FeedItem::More => None,
    }
}

#[test]
fn written_logs_are_cut_where_blocks_end(rt: HostRuntime) -> Result<(), Fail> {
    // with legacy headers: 6 bytes of padding, and an empty first part of a record
    let cases: [(&[u8], u64); 2] = [(&ZEROS[..32_755], 32_768), (&ZEROS[..32_754], 32_761)];
    for (payload, place) in cases {
        let mut writer = LogWriter::new(rt.alloc(), None);
        writer.add(payload)?;
        writer.add(&[0])?;
        let log = writer.finish();
        let items = [Told::Rec(payload.len(), 0), Told::Rec(1, place)];
        assert_items(&rt, log.as_slice(), &items, EndKind::Clean, 32_776)?;
    }
    // with recyclable ones, and 10 bytes of padding
    let mut writer = LogWriter::new(rt.alloc(), Some((1 << 32) + 9));
    writer.add(&ZEROS[..32_747])?;
    writer.add(&[0])?;
    let log = writer.finish();
    let items = [Told::Rec(32_747, 0), Told::Rec(1, BLOCK_LEN as u64)];
    assert_items(&rt, log.as_slice(), &items, EndKind::Clean, 32_780)
}

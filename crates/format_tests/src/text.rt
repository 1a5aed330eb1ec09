// The texts are those of the description of the commands, or are written down by its rules.
use rk_batch::{BatchFault, BatchRecord, BatchView};
use rk_bytes::model::{
    ApplyFault, EditWhy, Kind, LogWhat, ManifestFault, ManifestWhy, OpenErr, Property, RangeDel,
    Record, TableWhat, TableWhy, WalErr, WalWhy,
};
use rk_bytes::{Bytes, Seq};
use rk_edit::{EditFault, Field};
use rk_log::{EndKind, GapWhy, Item, Piece};
use rk_text::*;
use rk_view::{Answer, Operands, Row};
use std::test::Fail;

// A batch of puts of `a`, `b` and `c` from sequence number 5 on.
const PUTS: [u8; 27] = *b"\x05\0\0\0\0\0\0\0\x03\0\0\0\x01\x01a\x011\x01\x01b\x012\x01\x01c\x013";

// The edit of a new database.
const FIRST_EDIT: [u8; 34] = *b"\x01\x1Aleveldb.BytewiseComparator\x02\x03\x03\x04\x04\0";

// An edit with a field of each kind but a family's drop, which clashes with its add.
const EACH_FIELD: &[u8] =
    b"\x01\x0Bcomparators\x02\xAC\x02\x03\xFF\xFF\xFF\xFF\xFF\xFF\xFF\xFF\xFF\x01\
    \x04\xFF\xFF\xFF\xFF\xFF\xFF\xFF\x7F\x05\x03\x09k\x01\x02\0\0\0\0\0\0\x06\xFF\x01\x07\
    \x07\x01\x08\xE8\x07\x08\0\x01\0\0\0\0\0\0\x09b\x01\x02\0\0\0\0\0\0\x09\0\x0A\x05\
    \xC8\x01\xFF\xFF\xFF\xFF\x0F\xC9\x01\x06family\xCB\x01\x04\xAC\x02\x02\
    \x87@\x02\x03\x01\x87@\x04\x03\x020\x01\x88@\x01\x04\x81@\x03abc";

#[test]
fn bytes_are_quoted(rt: HostRuntime) -> Result<(), Fail> {
    let shown = b"\"\\x1f !\\x22\\x5c~\\x7f\\xff\"".as_slice();
    for (bytes, hex, wanted) in [
        (b"\x1F !\"\\~\x7F\xFF".as_slice(), false, shown),
        (b"\x00\xAB\"".as_slice(), true, b"0x00ab22".as_slice()),
        (b"".as_slice(), true, b"0x".as_slice()),
    ] {
        let text = quoted(rt.alloc(), bytes, hex)?;
        assert_eq!(rt; text.as_slice(), wanted);
    }
    Ok(())
}

#[test]
fn an_internal_key_is_shown(rt: HostRuntime) -> Result<(), Fail> {
    let text = key_text(rt.alloc(), b"a\"\x10\x01\0\0\0\0\0\x01", false)?;
    assert_eq!(rt;
        text.as_slice(),
        b"\"a\\x22\"@281474976710657:16".as_slice()
    );
    Ok(())
}

#[test]
fn the_lines_of_a_batch_follow_its_record(rt: HostRuntime) -> Result<(), Fail> {
    let alloc = rt.alloc();
    let item = Item::Rec(Piece::Whole(&PUTS), 0);
    let line = item_line(alloc, &item, "record")?;
    assert_eq!(rt; line.as_slice(), b"record 0 27\n".as_slice());
    let lines = batch_lines(alloc, &PUTS, false)?;
    let wanted =
        b"  batch 5 3\n  put 0 \"a\"@5 => \"1\"\n  put 0 \"b\"@6 => \"2\"\n  put 0 \"c\"@7 => \"3\"\n";
    assert_eq!(rt; lines.as_slice(), wanted.as_slice());
    Ok(())
}

#[test]
fn the_lines_of_an_edit_are_those_of_its_fields(rt: HostRuntime) -> Result<(), Fail> {
    for (bytes, wanted) in [
        (
            FIRST_EDIT.as_slice(),
            "  comparator \"leveldb.BytewiseComparator\"\n  log_number 3\n  next_file 4\n\
            \x20 last_sequence 0\n",
        ),
        (
            b"g\0\x04\xE8\x07\x09a\x01\x01\0\0\0\0\0\0\x09a\x01\x01\0\0\0\0\0\0\x01\x01\x01",
            "  add_file 0 4 1000 \"a\"@1:1 \"a\"@1:1 seqs 1 1\n",
        ),
        (b"\x81@\x03abc", "  ignored 8193 3\n"),
        (b"\x66", "  bad UnsupportedTag 102 0\n"),
        (b"\xC8\x01\x01\xCA\x01", "  family 1\n  family_drop\n"),
        (
            EACH_FIELD,
            "  comparator \"comparators\"\n  log_number 300\n  next_file 18446744073709551615\n\
            \x20 last_sequence 72057594037927935\n  compact_cursor 3 \"k\"@2:1\n  delete_file 255 7\n\
            \x20 add_file 1 8 1000 \"\"@1:0 \"b\"@2:1\n  previous_log 0\n  least_log 5\n\
            \x20 family 4294967295\n  family_add \"family\"\n  greatest_family 4\n  group 2\n\
            \x20 wal_add 3\n  wal_add 3 synced 48\n  wal_delete 4\n  ignored 8193 3\n",
        ),
    ] {
        let lines = edit_lines(rt.alloc(), bytes, false)?;
        assert_eq!(rt; lines.as_slice(), wanted.as_bytes());
    }
    Ok(())
}

#[test]
fn one_buffer_serves_for_all_lines(rt: HostRuntime) -> Result<(), Fail> {
    let mut line = Line::new(rt.alloc());
    line.set_item(&Item::Gap(GapWhy::Checksum, 7), "record")?;
    assert_eq!(rt; line.as_slice(), b"gap 7 Checksum\n".as_slice());
    line.set_item(&Item::End(EndKind::Unsupported(5), 40), "record")?;
    assert_eq!(rt; line.as_slice(), b"end 40 Unsupported 5\n".as_slice());
    if let Ok(view) = BatchView::read(&PUTS) {
        line.set_batch(&view)?;
        assert_eq!(rt; line.as_slice(), b"  batch 5 3\n".as_slice());
    }
    let part = BatchRecord::Change {
        place: 12,
        family: 7,
        kind: Kind::RangeDeletion,
        key: b"a",
        value: b"b",
        sequence: 3,
    };
    line.set_part(&part, true)?;
    assert_eq!(rt;
        line.as_slice(),
        b"  range_delete 7 0x61@3 .. 0x62\n".as_slice()
    );
    line.set_bad_batch(BatchFault::WrongCount {
        stated: 2,
        found: 3,
    })?;
    assert_eq!(rt; line.as_slice(), b"  bad WrongCount 2 3\n".as_slice());
    line.set_item(&Item::Rec(Piece::Whole(&FIRST_EDIT), 0), "edit")?;
    assert_eq!(rt; line.as_slice(), b"edit 0 34\n".as_slice());
    let cursor = Field::CompactCursor {
        level: 3,
        key: b"k\x01\x02\0\0\0\0\0\0",
    };
    line.set_field(&cursor, true)?;
    assert_eq!(rt;
        line.as_slice(),
        b"  compact_cursor 3 0x6b@2:1\n".as_slice()
    );
    line.set_bad_edit(EditFault::BadField { tag: 6, place: 2 })?;
    assert_eq!(rt; line.as_slice(), b"  bad BadField 6 2\n".as_slice());
    Ok(())
}

#[test]
fn refusals_name_their_causes(rt: HostRuntime) -> Result<(), Fail> {
    let mut line = Line::new(rt.alloc());
    let gap = ManifestWhy::Gap(GapWhy::Checksum);
    let absent = EditWhy::Apply(ApplyFault::DeleteAbsent(9));
    for (why, wanted) in [
        (
            OpenErr::Manifest(ManifestFault::Damaged { place: 7, why: gap }),
            "refused: ManifestDamaged 7 Checksum\n",
        ),
        (
            OpenErr::Manifest(ManifestFault::BadEdit {
                unit: 2,
                why: absent,
            }),
            "refused: BadEdit 2 DeleteAbsent 9\n",
        ),
        (
            OpenErr::SizeMismatch {
                n: 4,
                stated: 115,
                found: 114,
            },
            "refused: SizeMismatch 4 115 114\n",
        ),
        (
            OpenErr::DamagedTable {
                n: 4,
                why: TableWhy::Checksum,
                place: 0,
            },
            "refused: DamagedTable 4 Checksum 0\n",
        ),
        (
            OpenErr::UnsupportedTable {
                n: 4,
                what: TableWhat::Compressed(1),
            },
            "refused: UnsupportedTable 4 Compressed 1\n",
        ),
        (
            OpenErr::Wal(WalErr::Corrupt {
                log: 5,
                place: 37_969,
                why: WalWhy::Torn,
            }),
            "refused: Corrupt 5 37969 Torn\n",
        ),
        (
            OpenErr::Wal(WalErr::UnsupportedLog {
                log: 3,
                what: LogWhat::Tag(9),
            }),
            "refused: UnsupportedLog 3 tag 9\n",
        ),
    ] {
        line.set_not_opened(why)?;
        assert_eq!(rt; line.as_slice(), wanted.as_bytes());
    }
    Ok(())
}

#[test]
fn what_a_table_holds_is_shown(rt: HostRuntime) -> Result<(), Fail> {
    let alloc = rt.alloc();
    let mut line = Line::new(alloc);
    line.set_entry(
        &Record {
            family: 0,
            key: Bytes::copy_of(alloc, b"a")?,
            sequence: 1,
            kind: Kind::Value,
            value: Bytes::copy_of(alloc, b"x")?,
        },
        false,
    )?;
    assert_eq!(rt; line.as_slice(), b"\"a\"@1:1 => \"x\"\n".as_slice());
    line.set_range(
        &RangeDel {
            start: Bytes::copy_of(alloc, b"b")?,
            end: Bytes::copy_of(alloc, b"d")?,
            sequence: 10,
        },
        true,
    )?;
    assert_eq!(rt; line.as_slice(), b"range 0x62@10 .. 0x64\n".as_slice());
    line.set_property(
        &Property {
            name: Bytes::copy_of(alloc, b"rocksdb.num.entries")?,
            value: Bytes::copy_of(alloc, b"\x01")?,
        },
        false,
    )?;
    assert_eq!(rt;
        line.as_slice(),
        b"\"rocksdb.num.entries\" = \"\\x01\"\n".as_slice()
    );
    Ok(())
}

#[test]
fn what_is_shown_of_keys_has_its_line(rt: HostRuntime) -> Result<(), Fail> {
    let alloc = rt.alloc();
    let mut line = Line::new(alloc);
    line.set_answer(&Answer::Absent, false)?;
    assert_eq!(rt; line.as_slice(), b"not found\n".as_slice());
    line.set_row(
        &Row {
            key: b"a",
            answer: Answer::Found(b"1"),
        },
        true,
    )?;
    assert_eq!(rt; line.as_slice(), b"0x61 => 0x31\n".as_slice());
    let mut newest_first = Seq::new(alloc);
    newest_first.push(Bytes::copy_of(alloc, b"z")?)?;
    newest_first.push(Bytes::copy_of(alloc, b"y")?)?;
    let shown = Answer::Merge(Operands {
        newest_first,
        base: Some(Bytes::copy_of(alloc, b"x")?),
    });
    line.set_answer(&shown, false)?;
    assert_eq!(rt;
        line.as_slice(),
        b"merge \"z\" \"y\" base \"x\"\n".as_slice()
    );
    line.set_counts(1, 0, 2)?;
    assert_eq!(rt;
        line.as_slice(),
        b"ok: families 1 files 0 records 2\n".as_slice()
    );
    line.set_no_family(b"f")?;
    assert_eq!(rt; line.as_slice(), b"refused: NoFamily \"f\"\n".as_slice());
    Ok(())
}

// Expected bytes and fields were computed by a program of another language.
ghost use Rattle.rk_edit.specs.Fields.{field_of};
ghost use Rattle.rk_edit.specs.Writing.{HasShortSlices};

use rk_bytes::Bytes;
use rk_edit::*;
use std::process::Abort;
use std::test::Fail;

fn view_of(bytes: &[u8]) -> Result<EditView<'_>, Fail> {
    match EditView::read(bytes) {
        Ok(edit) => Ok(edit),
        Err(_) => Err(Fail::new("the edit doesn't read")),
    }
}

// The fields that are left of the edit are these.
fn assert_left<R: Abort>(rt: &R, mut edit: EditView<'_>, fields: &[Field<'_>]) -> Result<(), Fail> {
    for wanted in fields {
        let Some(field) = edit.next_field() else {
            return Err(Fail::new("a field is missing"));
        };
        assert_eq!(rt; field, *wanted);
    }
    assert!(rt; edit.next_field().is_none());
    Ok(())
}

#[test]
fn an_edit_of_a_new_database_reads(rt: HostRuntime) -> Result<(), Fail> {
    let mut edit = view_of(b"\x01\x1Aleveldb.BytewiseComparator\x02\x03\x03\x04\x04\0")?;
    let fields = [
        Field::Comparator(b"leveldb.BytewiseComparator"),
        Field::LogNumber(3),
        Field::NextFile(4),
        Field::LastSequence(0),
    ];
    assert_left(&rt, edit.copy(), &fields)?;
    assert_eq!(rt; edit.next_field(), Some(fields[0]));
    assert_left(&rt, edit, &fields[1..])
}

#[test]
fn every_field_reads(rt: HostRuntime) -> Result<(), Fail> {
    let bytes = b"\x01\x0Bcomparators\x02\xAC\x02\x03\xFF\xFF\xFF\xFF\xFF\xFF\xFF\xFF\xFF\x01\
        \x04\xFF\xFF\xFF\xFF\xFF\xFF\xFF\x7F\x05\x03\x09k\x01\x02\0\0\0\0\0\0\x06\xFF\x01\x07\
        \x07\x01\x08\xE8\x07\x08\0\x01\0\0\0\0\0\0\x09b\x01\x02\0\0\0\0\0\0\x09\0\x0A\x05\
        d\0\x09\x01\x09c\x01\x03\0\0\0\0\0\0\x09d\x01\x04\0\0\0\0\0\0\x03\x04\
        g\x06\x0A\x80\x80\x80\x80\x80 \x09e\x01\x05\0\0\0\0\0\0\x09f\x01\x06\0\0\0\0\0\0\x05\x06\
        \x05\x02\x07\x08A\x01\0\x01\
        \xC8\x01\xFF\xFF\xFF\xFF\x0F\xC9\x01\x06family\xCB\x01\x04\xAC\x02\x02\
        \x87@\x02\x03\x01\x87@\x04\x03\x020\x01\x87@\x08\x03\x02\x09\x02\x07\x01xx\x88@\x02\x04x\
        \x81@\x03abc\x80\xC0\x01\0";
    let fields = [
        Field::Comparator(b"comparators"),
        Field::LogNumber(300),
        Field::NextFile(u64::MAX),
        Field::LastSequence((1 << 56) - 1),
        Field::CompactCursor {
            level: 3,
            key: b"k\x01\x02\0\0\0\0\0\0",
        },
        Field::DeleteFile {
            level: 255,
            number: 7,
        },
        Field::AddFile(AddFile {
            level: 1,
            number: 8,
            size: 1000,
            smallest: b"\0\x01\0\0\0\0\0\0",
            largest: b"b\x01\x02\0\0\0\0\0\0",
            seqs: None,
        }),
        Field::PreviousLog(0),
        Field::LeastLog(5),
        Field::AddFile(AddFile {
            level: 0,
            number: 9,
            size: 1,
            smallest: b"c\x01\x03\0\0\0\0\0\0",
            largest: b"d\x01\x04\0\0\0\0\0\0",
            seqs: Some(Seqs {
                least: 3,
                greatest: 4,
            }),
        }),
        Field::AddFile(AddFile {
            level: 6,
            number: 10,
            size: 1 << 40,
            smallest: b"e\x01\x05\0\0\0\0\0\0",
            largest: b"f\x01\x06\0\0\0\0\0\0",
            seqs: Some(Seqs {
                least: 5,
                greatest: 6,
            }),
        }),
        Field::Family(u32::MAX),
        Field::FamilyAdd(b"family"),
        Field::GreatestFamily(4),
        Field::Group(2),
        Field::WalAdd {
            log: 3,
            synced: None,
        },
        Field::WalAdd {
            log: 3,
            synced: Some(48),
        },
        Field::WalAdd {
            log: 3,
            synced: Some(7),
        },
        Field::WalDelete(4),
        Field::Ignored {
            tag: 8193,
            bytes: b"abc",
        },
        Field::Ignored {
            tag: 24576,
            bytes: b"",
        },
    ];
    assert_left(&rt, view_of(bytes)?, &fields)?;
    let dropped = [Field::Family(1), Field::FamilyDrop];
    assert_left(&rt, view_of(b"\xC8\x01\x01\xCA\x01")?, &dropped)
}

#[test]
fn the_first_fault_is_told(rt: HostRuntime) -> Result<(), Fail> {
    for (bytes, wanted) in [
        (
            b"\x02\x07\xC8".as_slice(),
            EditFault::BadField { tag: 0, place: 2 },
        ),
        (
            b"\x02\x07\x08".as_slice(),
            EditFault::UnknownTag { tag: 8, place: 2 },
        ),
        (
            b"f".as_slice(),
            EditFault::UnsupportedTag { tag: 102, place: 0 },
        ),
        (
            b"\x91\x03\0".as_slice(),
            EditFault::UnsupportedTag { tag: 401, place: 0 },
        ),
        (
            b"\x02\x07\x82@\0".as_slice(),
            EditFault::UnsupportedTag {
                tag: 8194,
                place: 2,
            },
        ),
        (
            b"\x85@\0".as_slice(),
            EditFault::UnsupportedTag {
                tag: 8197,
                place: 0,
            },
        ),
        (
            b"\x02\x07\x06\x80\x02\x04".as_slice(),
            EditFault::BadField { tag: 6, place: 2 },
        ),
        (
            b"\x05\0\x07aaaaaaa".as_slice(),
            EditFault::BadField { tag: 5, place: 0 },
        ),
        (
            b"\x04\x80\x80\x80\x80\x80\x80\x80\x80\x01".as_slice(),
            EditFault::BadField { tag: 4, place: 0 },
        ),
        (
            b"\xC8\x01\x01\xC9\x01\x01f\xCA\x01".as_slice(),
            EditFault::BadField { tag: 202, place: 7 },
        ),
        (
            b"\xCA\x01\xC9\x01\x05".as_slice(),
            EditFault::BadField { tag: 201, place: 2 },
        ),
        (
            b"\x02\x07g\0\x04\xE8\x07\x09a\x01\x01\0\0\0\0\0\0\x09a\x01\x01\0\0\0\0\0\0\x01\x01A\x01\x02\x01".as_slice(),
            EditFault::UnsupportedTag { tag: 65, place: 2 },
        ),
        (
            b"\x02\x07g\0\x04\xE8\x07\x09a\x01\x01\0\0\0\0\0\0\x09a\x01\x01\0\0\0\0\0\0\x01\x01A\x02\0\0\x01".as_slice(),
            EditFault::BadField { tag: 103, place: 2 },
        ),
        (
            b"\x02\x07g\0\x04\xE8\x07\x09a\x01\x01\0\0\0\0\0\0\x09a\x01\x01\0\0\0\0\0\0\x01\x01B".as_slice(),
            EditFault::UnknownTag { tag: 66, place: 2 },
        ),
        (
            b"\x02\x07g\0\x04\xE8\x07\x09a\x01\x01\0\0\0\0\0\0\x09a\x01\x01\0\0\0\0\0\0\x01\x01\x05\0".as_slice(),
            EditFault::BadField { tag: 103, place: 2 },
        ),
        (
            b"\x87@\x03\x03\x03\x01".as_slice(),
            EditFault::BadField {
                tag: 8199,
                place: 0,
            },
        ),
        (
            b"\x88@\0".as_slice(),
            EditFault::BadField {
                tag: 8200,
                place: 0,
            },
        ),
        (
            b"\x81@\x03ab".as_slice(),
            EditFault::BadField {
                tag: 8193,
                place: 0,
            },
        ),
    ] {
        match EditView::read(bytes) {
            Ok(_) => return Err(Fail::new("the edit reads")),
            Err(fault) => assert_eq!(rt; fault, wanted),
        }
    }
    Ok(())
}

/// What is written of one field.
fn expect_written<R: Abort + AllocGlobal>(
    rt: &R,
    field: Field<'_>,
    wanted: &[u8],
) -> Result<(), Fail>
    requires { HasShortSlices (field_of field) }
{
    let mut out = Bytes::new(rt.alloc());
    write_field(rt.alloc(), &mut out, &field)?;
    assert_eq!(rt; out.as_slice(), wanted);
    Ok(())
}

#[test]
fn fields_are_written(rt: HostRuntime) -> Result<(), Fail> {
    let bound = b"a\x01\x01\0\0\0\0\0\0";
    let file = AddFile {
        level: 0,
        number: 4,
        size: 1000,
        smallest: bound,
        largest: bound,
        seqs: Some(Seqs {
            least: 1,
            greatest: 1,
        }),
    };
    let bytes = b"g\0\x04\xE8\x07\x09a\x01\x01\0\0\0\0\0\0\x09a\x01\x01\0\0\0\0\0\0\x01\x01\x01";
    expect_written(&rt, Field::AddFile(file), bytes)?;
    let tracked = Field::WalAdd {
        log: 3,
        synced: Some(48),
    };
    expect_written(&rt, tracked, b"\x87@\x04\x03\x020\x01")?;
    expect_written(&rt, Field::WalDelete(4), b"\x88@\x01\x04")?;
    expect_written(&rt, Field::Group(300), b"\xAC\x02\xAC\x02")
}

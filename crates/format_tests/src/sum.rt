// Sums from the formats' descriptions, and by a program of another language.
use rk_sum::*;

// The bytes 0, 1, 2 and so on.
fn counting() -> [u8; 255] {
    let mut bytes = [0u8; 255];
    for i in 0..255u8 {
        bytes[i as usize] = i;
    }
    bytes
}

#[test]
fn known_sums(rt: HostRuntime) {
    let counting = counting();
    let cases: [(&[u8], u32); 5] = [
        (b"", 0),
        (b"123456789", 0xE306_9283),
        (&[0; 32], 0x8A91_36AA),
        (&[0xFF; 32], 0x62A8_AB43),
        (&counting, 0x8953_C482),
    ];
    for (bytes, sum) in cases {
        assert_eq!(rt; crc32c(bytes), sum, "of {bytes:?}");
        let (front, back) = bytes.split_at(bytes.len() / 3);
        assert_eq!(rt;
            crc32c_extend(crc32c(front), back),
            sum,
            "of {bytes:?} in two"
        );
    }
    assert_eq!(rt; mask(0xE306_9283), 0xC78A_B0E5);
    assert_eq!(rt; unmask(0xC78A_B0E5), 0xE306_9283);
}

#[test]
fn known_hashes(rt: HostRuntime) {
    let counting = counting();
    let cases: [(&[u8], u32, u64); 4] = [
        (b"", 0x02CC_5D05, 0xEF46_DB37_51D8_E999),
        (b"abc", 0x32D1_53FF, 0x44BC_2CF5_AD77_0999),
        (
            b"0123456789abcdefghijklmnopqrstuvwxyzABCDEFGHIJK",
            0x1A6C_28CE,
            0xE7F6_F7FE_6DB7_FF27,
        ),
        (&counting, 0xB4D5_8730, 0x0F7D_9750_7CAA_D693),
    ];
    for (bytes, short, long) in cases {
        assert_eq!(rt; xxh32(bytes), short, "of {bytes:?}");
        assert_eq!(rt; xxh64(bytes), long, "of {bytes:?}");
    }
}

// Each block counts up, and its type is the byte that comes next: at 15 it ends a stripe of XXH32, at 31
// one of both.
#[test]
fn known_sums_of_blocks(rt: HostRuntime) {
    let counting = counting();
    let cases = [
        (0, 0, [0x4925_8FD2, 0xCF65_B03E, 0xDB05_2768]),
        (15, 15, [0xB45A_9E6A, 0xB728_37F4, 0xB841_69F7]),
        (31, 31, [0x951F_7892, 0x8307_41C1, 0x16FF_32B4]),
        (100, 100, [0xE605_2F1A, 0x1A20_E95B, 0x5F85_381E]),
        (255, 0, [0x38B7_4D4A, 0x75B9_E46A, 0x58DD_FA01]),
    ];
    for (len, type_byte, [crc, short, long]) in cases {
        let block = counting.get(..len).unwrap_or(b"");
        let sums = [
            (SumKind::NoSum, 0),
            (SumKind::Crc32c, crc),
            (SumKind::Xxh32, short),
            (SumKind::Xxh64, long),
        ];
        for (kind, sum) in sums {
            let found = block_sum(kind, block, type_byte);
            assert_eq!(rt; found, sum, "{kind:?} of {len} bytes");
        }
    }
}

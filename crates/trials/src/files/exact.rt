// One record of each kind, with values that tell its fields apart.
use super::agree::Readers;
use super::outline::{Found, Outline};
use super::second::second_reading;
use std::test::Fail;

/// The bytes of a record in the file, and what they say.
struct Sample {
    bytes: &'static [u8],
    kind: u8,
    fields: [u64; 8],
    memo_place: usize,
    memo: &'static [u8],
}

const SAMPLES: [Sample; 16] = [
    Sample {
        bytes: b"\x00\x26\x01\x01\x02\x03\x04\x05\x06\x07\x08\x09\x0a\x0b\x0c\x0d\x0e\x0f\x10\x00\x00\x00\x00\xff\xff\xff\xff\x80\x00\x00\x00\x00\x00\x00\x01open!",
        kind: 1,
        fields: [
            16_909_060,
            84_281_096,
            151_653_132,
            219_025_168,
            0,
            4_294_967_295,
            2_147_483_648,
            1,
        ],
        memo_place: 36,
        memo: b"open!",
    },
    Sample {
        bytes: b"\x00\x06\x02\x07\xca\xfe\x03A",
        kind: 2,
        fields: [7, 51_966, 3, 0, 0, 0, 0, 0],
        memo_place: 48,
        memo: b"A",
    },
    Sample {
        bytes: b"\x00\x12\x03\x01\x02\x04\xff\xff\x12\x34\x56\x78\xc8offer/3",
        kind: 3,
        fields: [258, 4, 65_535, 305_419_896, 200, 0, 0, 0],
        memo_place: 62,
        memo: b"offer/3",
    },
    Sample {
        bytes: b"\x00\x03\x04\xff\xfe",
        kind: 4,
        fields: [65_534, 0, 0, 0, 0, 0, 0, 0],
        memo_place: 74,
        memo: b"",
    },
    Sample {
        bytes: b"\x00\x05\x05\x01\x01\x00~",
        kind: 5,
        fields: [1, 256, 0, 0, 0, 0, 0, 0],
        memo_place: 80,
        memo: b"~",
    },
    Sample {
        bytes: b"\x00\x05\x06\x02\x00\xff!",
        kind: 6,
        fields: [2, 255, 0, 0, 0, 0, 0, 0],
        memo_place: 87,
        memo: b"!",
    },
    Sample {
        bytes: b"\x00\x0c\x07\xff\x01\x02\x03\x04\x05\x06\x07\x08#7",
        kind: 7,
        fields: [255, 72_623_859_790_382_856, 0, 0, 0, 0, 0, 0],
        memo_place: 100,
        memo: b"#7",
    },
    Sample {
        bytes: b"\x00\x0c\x08\x09\x0a\xee\x6b\x28\x01\x01\x6eg-8",
        kind: 8,
        fields: [9, 10, 4_000_000_001, 366, 0, 0, 0, 0],
        memo_place: 113,
        memo: b"g-8",
    },
    Sample {
        bytes: b"\x00\x0d\x09\x0b\x0c\x03\x02\x04\x05bond:9",
        kind: 9,
        fields: [11, 12, 770, 1_029, 0, 0, 0, 0],
        memo_place: 125,
        memo: b"bond:9",
    },
    Sample {
        bytes: b"\x00\x03\x0a\x02\xfe",
        kind: 10,
        fields: [2, 254, 0, 0, 0, 0, 0, 0],
        memo_place: 136,
        memo: b"",
    },
    Sample {
        bytes: b"\x00\x04\x0bten",
        kind: 11,
        fields: [0, 0, 0, 0, 0, 0, 0, 0],
        memo_place: 139,
        memo: b"ten",
    },
    Sample {
        bytes: b"\x00\x06\x0c\x1fwait",
        kind: 12,
        fields: [31, 0, 0, 0, 0, 0, 0, 0],
        memo_place: 146,
        memo: b"wait",
    },
    Sample {
        bytes: b"\x00\x18\x0d\x20\x05\xf5\xe1\x01\x80\x00\x00\x00\x00\x00\x00\x01\x00\x00\x00\x21buy-in",
        kind: 13,
        fields: [32, 100_000_001, 9_223_372_036_854_775_809, 33, 0, 0, 0, 0],
        memo_place: 170,
        memo: b"buy-in",
    },
    Sample {
        bytes: b"\x00\x01\x0e",
        kind: 14,
        fields: [0, 0, 0, 0, 0, 0, 0, 0],
        memo_place: 179,
        memo: b"",
    },
    Sample {
        bytes: b"\x00\x05\x0f\x12\x34!~",
        kind: 15,
        fields: [4_660, 0, 0, 0, 0, 0, 0, 0],
        memo_place: 184,
        memo: b"!~",
    },
    Sample {
        bytes: b"\x00\x42\x10\x000123456789abcdefghijklmnopqrstuvwxyzABCDEFGHIJKLMNOPQRSTUVWXYZ+=",
        kind: 16,
        fields: [0, 0, 0, 0, 0, 0, 0, 0],
        memo_place: 190,
        memo: b"0123456789abcdefghijklmnopqrstuvwxyzABCDEFGHIJKLMNOPQRSTUVWXYZ+=",
    },
];

#[test]
fn each_field_has_its_value(rt: HostRuntime) -> Result<(), Fail> {
    let heap = rt.alloc();
    let readers = Readers { rt: &rt, heap };
    let mut file = vec![in heap; 1]?;
    let mut records = Vec::new(heap);
    for sample in &SAMPLES {
        file.extend_from_slice(sample.bytes)?;
        records.push(Outline::new(
            sample.kind,
            sample.fields,
            sample.memo,
            sample.memo_place,
            heap,
        )?)?;
    }
    let expected = Found {
        records,
        fault: None,
    };
    readers.reader_finds(&"reader", &expected, &file)?;
    let found = second_reading(&file, heap)?;
    readers.same(&"second reader", &found, &expected);
    Ok(())
}

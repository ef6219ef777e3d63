// Every fault with its layer, number and place, and which one is told where two are to be found.
use super::agree::Readers;
use dayfile::{Layer, Told};
use std::process::Abort;
use std::test::Fail;

/// Why a file is faulty, the file, the number of records before the fault, and the fault's place.
type Case = (&'static str, &'static [u8], usize, usize);

const NO_VERSION: [Case; 4] = [
    ("no byte", b"", 0, 0),
    ("version 0", b"\x00\x00\x01\x0b", 0, 0),
    ("version 2", b"\x02\x00\x01\x0b", 0, 0),
    ("version 2 and a length of 0", b"\x02\x00\x00", 0, 0),
];

const ENDS_INSIDE: [Case; 9] = [
    ("one byte of the length", b"\x01\x00", 0, 1),
    (
        "one byte of the second length",
        b"\x01\x00\x01\x0b\x00",
        1,
        4,
    ),
    ("a length of 1 and no kind", b"\x01\x00\x01", 0, 1),
    ("past the end by one", b"\x01\x00\x02\x0b", 0, 1),
    (
        "the greatest length",
        b"\x01\x00\x02\x0ba\xff\xff\x0b",
        1,
        5,
    ),
    ("the low byte first would fit", b"\x01\x01\x00\x0b", 0, 1),
    ("past the end with no such kind", b"\x01\x00\x02\x11", 0, 1),
    (
        "past the end in the fields",
        b"\x01\x00\x05\x02\x07\x00",
        0,
        1,
    ),
    (
        "past the end with an odd memo",
        b"\x01\x00\x03\x0b\x20",
        0,
        1,
    ),
];

const BAD_LENGTH: [Case; 5] = [
    ("a length of 0 at the end", b"\x01\x00\x00", 0, 1),
    (
        "a length of 0 before a good record",
        b"\x01\x00\x00\x00\x01\x0b",
        0,
        1,
    ),
    (
        "a length of 0 after a memo",
        b"\x01\x00\x02\x0ba\x00\x00",
        1,
        5,
    ),
    (
        "fields cut short before a good record",
        b"\x01\x00\x03\x05\x07\x00\x00\x01\x0b",
        0,
        1,
    ),
    (
        "fields cut short after a good record",
        b"\x01\x00\x01\x0e\x00\x02\x0f\x20",
        1,
        4,
    ),
];

const NO_KIND: [Case; 5] = [
    ("kind 0", b"\x01\x00\x01\x00", 0, 1),
    ("kind 17", b"\x01\x00\x01\x0b\x00\x01\x11", 1, 4),
    ("kind 255", b"\x01\x00\x01\xff", 0, 1),
    ("kind 17 with an odd memo", b"\x01\x00\x02\x11\x20", 0, 1),
    (
        "kind 0 before a record that ends early",
        b"\x01\x00\x02\x00a\x00",
        0,
        1,
    ),
];

const ODD_MEMO: [Case; 7] = [
    ("memo byte 32", b"\x01\x00\x02\x0b\x20", 0, 1),
    ("memo byte 127", b"\x01\x00\x01\x0b\x00\x02\x0b\x7f", 1, 4),
    ("memo byte 0", b"\x01\x00\x02\x0b\x00", 0, 1),
    ("memo byte 255", b"\x01\x00\x02\x0b\xff", 0, 1),
    (
        "the first byte after a field",
        b"\x01\x00\x05\x10\x07\x20ab",
        0,
        1,
    ),
    ("the last byte", b"\x01\x00\x05\x10\x07ab\x20", 0, 1),
    (
        "an odd memo before a length of 0",
        b"\x01\x00\x02\x0b\x20\x00\x00",
        0,
        1,
    ),
];

fn try_all<R: Abort>(
    readers: &Readers<'_, R>,
    cases: &[Case],
    layer: Layer,
    number: u8,
) -> Result<(), Fail> {
    for (why, file, records, place) in cases {
        let told = Told {
            layer,
            number,
            place: *place,
        };
        readers.both_find(why, file, *records, Some(told))?;
    }
    Ok(())
}

#[test]
fn each_fault_tells_its_layer_number_and_place(rt: HostRuntime) -> Result<(), Fail> {
    let readers = Readers {
        rt: &rt,
        heap: rt.alloc(),
    };
    try_all(&readers, &NO_VERSION, Layer::File, 20)?;
    try_all(&readers, &ENDS_INSIDE, Layer::Record, 23)?;
    try_all(&readers, &BAD_LENGTH, Layer::Record, 21)?;
    try_all(&readers, &NO_KIND, Layer::Record, 22)?;
    try_all(&readers, &ODD_MEMO, Layer::Memo, 24)
}

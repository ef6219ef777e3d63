// The edges of each kind: its shortest and longest record, one byte less and one more, and each byte of a memo.
use super::agree::Readers;
use super::made::{KINDS, one_record};
use dayfile::{Layer, Told};
use std::test::Fail;

/// A memo of 65 bytes; its first 64 are the longest memo.
const DASHES: [u8; 65] = [b'-'; 65];

const SPACES: [u8; 65] = [b' '; 65];

const BAD_LENGTH: Told = Told {
    layer: Layer::Record,
    number: 21,
    place: 1,
};

const ODD_MEMO: Told = Told {
    layer: Layer::Memo,
    number: 24,
    place: 1,
};

#[test]
fn a_record_has_all_its_fields(rt: HostRuntime) -> Result<(), Fail> {
    let heap = rt.alloc();
    let readers = Readers { rt: &rt, heap };
    for (kind, width) in KINDS {
        let whole = one_record(kind, width, b"", heap)?;
        readers.both_find(&format_args!("kind {kind}"), &whole, 1, None)?;
        if let Some(less) = width.checked_sub(1) {
            let short = one_record(kind, less, b"", heap)?;
            readers.both_find(
                &format_args!("short kind {kind}"),
                &short,
                0,
                Some(BAD_LENGTH),
            )?;
        }
    }
    Ok(())
}

#[test]
fn a_memo_has_at_most_64_bytes(rt: HostRuntime) -> Result<(), Fail> {
    let heap = rt.alloc();
    let readers = Readers { rt: &rt, heap };
    for (kind, width) in KINDS {
        let longest = one_record(kind, width, &DASHES[1..], heap)?;
        readers.both_find(&format_args!("kind {kind} with 64"), &longest, 1, None)?;
        for (why, memo) in [("65", &DASHES), ("65 odd", &SPACES)] {
            let longer = one_record(kind, width, memo, heap)?;
            readers.both_find(
                &format_args!("kind {kind} with {why}"),
                &longer,
                0,
                Some(BAD_LENGTH),
            )?;
        }
    }
    let no_kind = Told {
        layer: Layer::Record,
        number: 22,
        place: 1,
    };
    readers.both_find(
        &"kind 17 with 65",
        &one_record(17, 32, &DASHES, heap)?,
        0,
        Some(no_kind),
    )
}

#[test]
fn a_memo_has_bytes_33_to_126(rt: HostRuntime) -> Result<(), Fail> {
    let heap = rt.alloc();
    let readers = Readers { rt: &rt, heap };
    for (kind, width) in KINDS {
        for byte in 0..=255 {
            let (records, fault) = match byte {
                33..=126 => (1, None),
                _ => (0, Some(ODD_MEMO)),
            };
            for (end, memo) in [("first", [byte, b'a', b'a']), ("last", [b'a', b'a', byte])] {
                let what = format_args!("kind {kind}, {end} {byte}");
                let file = one_record(kind, width, &memo, heap)?;
                readers.both_find(&what, &file, records, fault)?;
            }
        }
    }
    Ok(())
}

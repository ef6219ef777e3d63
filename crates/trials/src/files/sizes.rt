// The greatest file, and one byte more.
use super::agree::Readers;
use super::made::put_record;
use dayfile::{Layer, Told};
use std::test::Fail;

const TOO_LONG: Told = Told {
    layer: Layer::File,
    number: 25,
    place: 65_536,
};

/// The shortest records: 1 + 21,845 * 3 bytes are 65,536.
#[test]
fn a_file_has_at_most_65536_bytes(rt: HostRuntime) -> Result<(), Fail> {
    let heap = rt.alloc();
    let readers = Readers { rt: &rt, heap };
    let mut file = vec![in heap; 1]?;
    for _ in 0..21_845 {
        put_record(&mut file, 11, b"", b"")?;
    }
    assert_eq!(rt; file.len(), 65_536);
    readers.both_find(&"the greatest", &file, 21_845, None)?;
    file.push(0)?;
    readers.both_find(&"a byte more", &file, 0, Some(TOO_LONG))?;
    if let Some(version) = file.get_mut(0) {
        *version = 2;
    }
    readers.both_find(&"a byte more and no version", &file, 0, Some(TOO_LONG))
}

/// The longest records: 1 + 661 * 99 bytes are 65,440, and one of 96 fills the rest.
#[test]
fn a_file_of_long_records(rt: HostRuntime) -> Result<(), Fail> {
    let heap = rt.alloc();
    let readers = Readers { rt: &rt, heap };
    let mut file = vec![in heap; 1]?;
    for _ in 0..661 {
        put_record(&mut file, 1, &[7; 32], &[b'~'; 64])?;
    }
    assert_eq!(rt; file.len(), 65_440);
    put_record(&mut file, 1, &[7; 32], &[b'!'; 61])?;
    assert_eq!(rt; file.len(), 65_536);
    readers.both_find(&"long records", &file, 662, None)?;
    file.push(b'!')?;
    readers.both_find(&"a byte more", &file, 0, Some(TOO_LONG))
}

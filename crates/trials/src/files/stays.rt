// Where a reader stands: at a fault it stays, and at the end it stays too.
use dayfile::{Fault, Layer, Reader, Record, Told};
use std::test::Fail;

/// A good record of four bytes, then one that is not, its fault's layer and number; in most a good one that is never reached.
const FAULTY: [(&'static [u8], Layer, u8); 4] = [
    (b"\x01\x00\x02\x0ba\x00\x09", Layer::Record, 23),
    (b"\x01\x00\x02\x0ba\x00\x00\x00\x01\x0b", Layer::Record, 21),
    (
        b"\x01\x00\x02\x0ba\x00\x01\x11\x00\x01\x0b",
        Layer::Record,
        22,
    ),
    (
        b"\x01\x00\x02\x0ba\x00\x02\x0b\x7f\x00\x01\x0b",
        Layer::Memo,
        24,
    ),
];

/// What a reader answered: what a fault told, or whether there was a record.
fn answer(asked: Result<Option<Record<'_>>, Fault>) -> Result<bool, Told> {
    asked
        .map(|record| record.is_some())
        .map_err(|fault| fault.told())
}

fn opened(file: &[u8]) -> Result<Reader<'_>, Fail> {
    Reader::open(file).map_err(|fault| Fail::new(fault.expected()))
}

#[test]
fn a_reader_stays_at_a_fault(rt: HostRuntime) -> Result<(), Fail> {
    for (file, layer, number) in FAULTY {
        let mut reader = opened(file)?;
        assert_eq!(rt; answer(reader.next_record()), Ok(true), "{}", number);
        assert_eq!(rt; reader.at, 5, "{}", number);
        for _ in 0..3 {
            let told = Told {
                layer,
                number,
                place: 5,
            };
            assert_eq!(rt; answer(reader.next_record()), Err(told), "{}", number);
            assert_eq!(rt; reader.at, 5, "{}", number);
        }
    }
    Ok(())
}

#[test]
fn a_reader_stays_at_the_end(rt: HostRuntime) -> Result<(), Fail> {
    let mut reader = opened(b"\x01\x00\x02\x0ba\x00\x03\x04\x00\x07")?;
    for at in [5, 10] {
        assert_eq!(rt; answer(reader.next_record()), Ok(true));
        assert_eq!(rt; reader.at, at);
    }
    for _ in 0..3 {
        assert_eq!(rt; answer(reader.next_record()), Ok(false));
        assert_eq!(rt; reader.at, 10);
    }
    Ok(())
}

// Either kind may go onto either shelf: here bonds onto the first and guarantees onto the second, at the place 0 and for
// account 3.
use super::call::Answer;
use super::call::Answer::{Done, Number, Refused};
use super::call::Call::Enrol;
use super::limits::opened;
use super::shelves::Shelves;
use super::tried::{number, pledged, told};
use book::{Book, Pledged};
use kinds::{Bond, Guarantee};
use std::test::Fail;

fn pledge(book: &Book, shelves: &mut Shelves, pledge: Option<Pledged<Bond, Guarantee>>) -> Answer {
    let first = &mut shelves.bonds;
    told(pledged(book, first, &mut shelves.guarantees, 3, 0, pledge))
}

fn pledge_bonds(book: &Book, shelves: &mut Shelves, blocks: u16) -> Answer {
    pledge(book, shelves, Bond::new(blocks, 9).map(Pledged::First))
}

fn pledge_guarantee(book: &Book, shelves: &mut Shelves, thousands: u32) -> Answer {
    pledge(
        book,
        shelves,
        Guarantee::new(thousands, 9).map(Pledged::Second),
    )
}

fn release(book: &Book, shelves: &mut Shelves, shelf: u8) -> Answer {
    let first = &mut shelves.bonds;
    told(
        book.release(first, &mut shelves.guarantees, shelf, 0)
            .map(number),
    )
}

#[test]
fn bonds_first_and_guarantees_second(rt: HostRuntime) -> Result<(), Fail> {
    let mut pair = opened(&rt, rt.alloc())?;
    pair.expect_one(&rt, Enrol(3, 1, 4), Done);
    let book = &pair.book;
    let shelves = &mut pair.shelves;
    assert_eq!(rt; pledge_bonds(book, shelves, 2), Number(18_000_000));
    assert_eq!(rt; pledge_guarantee(book, shelves, 5), Number(18_500_000));
    assert_eq!(rt; pledge_bonds(book, shelves, 1), Refused(4));
    assert_eq!(rt; pledge_guarantee(book, shelves, 1), Refused(4));
    assert_eq!(rt; release(book, shelves, 2), Refused(1));
    assert_eq!(rt; release(book, shelves, 0), Number(500_000));
    assert_eq!(rt; release(book, shelves, 0), Refused(5));
    assert_eq!(rt; release(book, shelves, 1), Number(0));
    assert_eq!(rt; release(book, shelves, 1), Refused(5));
    pair.look_at_all(&rt, &"bonds first");
    Ok(())
}

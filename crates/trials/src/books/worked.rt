// Statements worked out by hand.
use super::call::Answer::{Done, Number};
use super::call::Call::{Apply, Deposit, Enrol};
use super::call::{Answer, Call, Stated};
use super::limits::{nearly_fill, opened_with};
use super::pair::Pair;
use super::shelves::Shelves;
use super::tried::statement_of;
use std::fmt::Display;
use std::process::Abort;
use std::test::Fail;

/// A statement of an account that owes nothing, so that target and floor are the same.
fn told(
    applied: i128,
    balance: i128,
    cover: i128,
    floor: i128,
    headroom: i128,
) -> Result<Stated, u8> {
    Ok(Stated {
        owed: 0,
        applied,
        barred: false,
        balance,
        cover,
        floor,
        target: floor,
        headroom,
    })
}

/// Both tell this of an account.
fn tells(rt: &impl Abort, pair: &Pair, account: u8, expected: Result<Stated, u8>) {
    tells_with(rt, &"worked by hand", pair, account, expected);
}

fn tells_with(
    rt: &impl Abort,
    what: &impl Display,
    pair: &Pair,
    account: u8,
    expected: Result<Stated, u8>,
) {
    pair.look_at(rt, what, account);
    assert_eq!(rt;
        pair.second.statement(&pair.shelves.plain, account),
        expected,
        "{what}, account {account}"
    );
}

/// The prices of their securities are 1, 5,000, 12,345 and 1,000,000 cents.
const ACCOUNTS: [(Call, Answer); 9] = [
    (Enrol(0, 4_001, 0), Done),
    (Enrol(3, 4_002, 4), Done),
    (Enrol(4, 4_002, 5), Done),
    (Enrol(63, 4_003, 7), Done),
    (Apply(3, 10), Number(10)),
    (Deposit(3, 123_456), Number(123_456)),
    (Apply(4, 1_000), Number(1_000)),
    (Apply(63, 1), Number(1)),
    (Deposit(63, 1), Number(1)),
];

/// On day 1 those that expire on day 0 or 1 count for nothing. No account stands at 9, and none can stand at 67.
fn lodge(shelves: &mut Shelves) {
    shelves.put_guarantee(0, 3, 5, 2);
    shelves.put_guarantee(1, 3, 7, 1);
    shelves.put_guarantee(2, 3, 11, 0);
    shelves.put_guarantee(3, 4, 9, 65_535);
    shelves.put_guarantee(64, 9, 13, 100);
    shelves.put_guarantee(126, 67, 17, 100);
    shelves.put_guarantee(127, 3, 1_000_000, 60_000);
    shelves.put_bond(0, 4, 1, 2);
    shelves.put_bond(5, 3, 2, 3);
    shelves.put_bond(6, 3, 3, 1);
    shelves.put_bond(7, 3, 4, 0);
    shelves.put_bond(100, 0, 1, 1);
    shelves.put_bond(101, 67, 5, 100);
    shelves.put_bond(127, 4, 10_000, 2);
}

/// Of account 3 the first and the last guarantee count, 500,000 and 100,000,000,000 cents, and a bond, 18,000,000 cents; of
/// account 4 a guarantee of 900,000 cents and two bonds, 9,000,000 and 90,000,000,000 cents; of the others nothing.
#[test]
fn pledges_of_an_account_that_have_not_expired(rt: HostRuntime) -> Result<(), Fail> {
    let mut pair = opened_with(&rt, &"accounts", &ACCOUNTS, rt.alloc())?;
    tells(
        &rt,
        &pair,
        3,
        told(10, 123_456, 123_456, 60_000_000, -59_876_544),
    );
    lodge(&mut pair.shelves);
    tells(&rt, &pair, 0, told(0, 0, 0, 0, 0));
    tells(
        &rt,
        &pair,
        3,
        told(10, 123_456, 100_018_623_456, 60_000_000, 99_958_623_456),
    );
    tells(
        &rt,
        &pair,
        4,
        told(1_000, 0, 90_009_900_000, 14_814_000_000, 75_195_900_000),
    );
    tells(&rt, &pair, 63, told(1, 1, 1, 1_200_000_000, -1_199_999_999));
    tells(&rt, &pair, 9, Err(5));
    tells(&rt, &pair, 67, Err(1));
    // Headroom comes to nothing, from one cent below to one above.
    pair.expect_one(&rt, Apply(0, 1), Number(1));
    pair.expect_one(&rt, Deposit(0, 1_199), Number(1_199));
    tells(&rt, &pair, 0, told(1, 1_199, 1_199, 1_200, -1));
    pair.expect_one(&rt, Deposit(0, 1), Number(1_200));
    tells(&rt, &pair, 0, told(1, 1_200, 1_200, 1_200, 0));
    pair.expect_one(&rt, Deposit(0, 1), Number(1_201));
    tells(&rt, &pair, 0, told(1, 1_201, 1_201, 1_200, 1));
    Ok(())
}

/// Either kind may stand on either shelf.
#[test]
fn kinds_on_either_shelf(rt: HostRuntime) -> Result<(), Fail> {
    let mut pair = opened_with(&rt, &"accounts", &ACCOUNTS, rt.alloc())?;
    lodge(&mut pair.shelves);
    let guarantees = &pair.shelves.guarantees;
    let bonds = &pair.shelves.bonds;
    assert_eq!(rt;
        statement_of(&pair.book, bonds, guarantees, 3),
        told(10, 123_456, 100_018_623_456, 60_000_000, 99_958_623_456),
        "bonds first"
    );
    assert_eq!(rt;
        statement_of(&pair.book, guarantees, guarantees, 3),
        told(10, 123_456, 200_001_123_456, 60_000_000, 199_941_123_456),
        "guarantees twice"
    );
    assert_eq!(rt;
        statement_of(&pair.book, bonds, bonds, 3),
        told(10, 123_456, 36_123_456, 60_000_000, -23_876_544),
        "bonds twice"
    );
    Ok(())
}

/// The most that an account can have: 128 guarantees of 100,000,000,000 cents are 12,800,000,000,000, and 128 bonds of 10,000
/// blocks are 11,520,000,000,000.
#[test]
fn the_highest_cover(rt: HostRuntime) -> Result<(), Fail> {
    let account = [(Enrol(7, 9_999, 7), Done), (Apply(7, 1_000), Number(1_000))];
    let mut pair = opened_with(&rt, &"account", &account, rt.alloc())?;
    nearly_fill(&rt, &mut pair);
    pair.expect_one(
        &rt,
        Deposit(7, 10_000_000_000_000),
        Number(1_000_000_000_000_000),
    );
    for place in 0..128 {
        pair.shelves.put_guarantee(place, 7, 1_000_000, 2);
        pair.shelves.put_bond(place, 7, 10_000, 2);
    }
    let highest = told(
        1_000,
        1_000_000_000_000_000,
        1_024_320_000_000_000,
        1_200_000_000_000,
        1_023_120_000_000_000,
    );
    tells(&rt, &pair, 7, highest);
    Ok(())
}

/// A shelf has 128 places: with any other number there is no statement, whether or not the account place is empty.
#[test]
fn places_of_a_shelf(rt: HostRuntime) -> Result<(), Fail> {
    let heap = rt.alloc();
    let mut pair = opened_with(&rt, &"accounts", &ACCOUNTS, heap)?;
    for (first, second) in [
        (127, 128),
        (128, 127),
        (129, 128),
        (128, 129),
        (127, 129),
        (0, 0),
        (256, 0),
    ] {
        pair.shelves = Shelves::empty(first, second, heap)?;
        for account in [3, 9, 64] {
            tells_with(
                &rt,
                &format_args!("{first} and {second} places"),
                &pair,
                account,
                Err(1),
            );
        }
    }
    pair.shelves = Shelves::empty(128, 128, heap)?;
    tells(
        &rt,
        &pair,
        3,
        told(10, 123_456, 123_456, 60_000_000, -59_876_544),
    );
    tells(&rt, &pair, 9, Err(5));
    tells(&rt, &pair, 64, Err(1));
    tells(&rt, &pair, 255, Err(1));
    Ok(())
}

/// Before the first day every account place is empty.
#[test]
fn statements_of_a_blank_book(rt: HostRuntime) -> Result<(), Fail> {
    let heap = rt.alloc();
    let mut pair = Pair::new(heap)?;
    lodge(&mut pair.shelves);
    tells(&rt, &pair, 3, Err(5));
    tells(&rt, &pair, 64, Err(1));
    pair.shelves = Shelves::empty(128, 127, heap)?;
    tells(&rt, &pair, 3, Err(1));
    Ok(())
}

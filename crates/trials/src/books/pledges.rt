// Limits of pledges and releases: one below each, at it and one above it. What is expected is written by hand. Units of the
// security 4, at 5,000 cents for each share, have a target of 6,000,000 cents each.
use super::call::Answer::{Done, Number, Refused};
use super::call::Call::{Apply, Bonds, Deposit, Enrol, Guarantee, Release};
use super::call::{Answer, Call};
use super::limits::opened;
use std::test::Fail;

/// A thousand is 100,000 cents, and a block covers 9,000,000. It is day 1.
const PLEDGES: [(Call, Answer); 35] = [
    (Enrol(0, 1, 4), Done),
    (Enrol(63, 1, 7), Done),
    (Deposit(63, 5), Number(5)),
    (Guarantee(62, 0, 1, 2), Refused(5)),
    (Guarantee(63, 0, 1, 2), Number(100_005)),
    (Guarantee(64, 1, 1, 2), Refused(1)),
    (Guarantee(255, 1, 1, 2), Refused(1)),
    (Bonds(62, 0, 1, 2), Refused(5)),
    (Bonds(63, 0, 1, 2), Number(9_100_005)),
    (Bonds(64, 1, 1, 2), Refused(1)),
    (Bonds(255, 1, 1, 2), Refused(1)),
    (Guarantee(0, 126, 1, 2), Number(100_000)),
    (Guarantee(0, 127, 1, 2), Number(200_000)),
    (Guarantee(0, 128, 1, 2), Refused(1)),
    (Guarantee(0, 255, 1, 2), Refused(1)),
    (Bonds(0, 126, 1, 2), Number(9_200_000)),
    (Bonds(0, 127, 1, 2), Number(18_200_000)),
    (Bonds(0, 128, 1, 2), Refused(1)),
    (Bonds(0, 255, 1, 2), Refused(1)),
    (Guarantee(0, 127, 1, 2), Refused(4)),
    (Guarantee(63, 126, 1, 2), Refused(4)),
    (Bonds(0, 127, 1, 2), Refused(4)),
    (Bonds(63, 126, 1, 2), Refused(4)),
    (Guarantee(0, 1, 1, 0), Refused(15)),
    (Guarantee(0, 1, 1, 1), Refused(15)),
    (Guarantee(0, 1, 1, 2), Number(18_300_000)),
    (Guarantee(0, 2, 1, 65_535), Number(18_400_000)),
    (Bonds(0, 1, 1, 0), Refused(15)),
    (Bonds(0, 1, 1, 1), Refused(15)),
    (Bonds(0, 1, 1, 2), Number(27_400_000)),
    (Bonds(0, 2, 1, 65_535), Number(36_400_000)),
    (Guarantee(0, 3, 999_999, 2), Number(100_036_300_000)),
    (Guarantee(0, 4, 1_000_000, 2), Number(200_036_300_000)),
    (Bonds(0, 3, 9_999, 2), Number(290_027_300_000)),
    (Bonds(0, 4, 10_000, 2), Number(380_027_300_000)),
];

const RELEASES: [(Call, Answer); 22] = [
    (Enrol(0, 1, 4), Done),
    (Guarantee(0, 127, 3, 2), Number(300_000)),
    (Guarantee(0, 0, 5, 2), Number(800_000)),
    (Bonds(0, 127, 2, 2), Number(18_800_000)),
    (Bonds(0, 0, 1, 2), Number(27_800_000)),
    (Release(2, 127), Refused(1)),
    (Release(255, 127), Refused(1)),
    (Release(0, 128), Refused(1)),
    (Release(0, 255), Refused(1)),
    (Release(1, 128), Refused(1)),
    (Release(1, 255), Refused(1)),
    (Release(0, 126), Refused(5)),
    (Release(1, 126), Refused(5)),
    (Release(0, 127), Number(27_500_000)),
    (Release(0, 127), Refused(5)),
    (Release(1, 127), Number(9_500_000)),
    (Release(1, 127), Refused(5)),
    (Release(1, 0), Number(500_000)),
    (Release(0, 0), Number(0)),
    (Release(0, 0), Refused(5)),
    (Guarantee(0, 127, 1, 2), Number(100_000)),
    (Bonds(0, 127, 1, 2), Number(9_100_000)),
];

/// The target of account 3 is 6,000,000 cents, and 12,000,000 with the second unit.
const DOWN_TO_THE_TARGET: [(Call, Answer); 16] = [
    (Enrol(3, 1, 4), Done),
    (Apply(3, 1), Number(1)),
    (Deposit(3, 5_999_999), Number(5_999_999)),
    (Guarantee(3, 7, 1, 2), Number(6_099_999)),
    (Bonds(3, 7, 1, 2), Number(15_099_999)),
    (Release(0, 7), Number(14_999_999)),
    (Release(1, 7), Refused(12)),
    (Deposit(3, 1), Number(6_000_000)),
    (Release(1, 7), Number(6_000_000)),
    (Apply(3, 1), Number(2)),
    (Guarantee(3, 7, 60, 2), Number(12_000_000)),
    (Guarantee(3, 8, 1, 2), Number(12_100_000)),
    (Release(0, 7), Refused(12)),
    (Release(0, 8), Number(12_000_000)),
    (Release(0, 7), Refused(12)),
    (Release(0, 6), Refused(5)),
];

/// On day 1 with a target of 6,000,000 cents: past the expiry day no cover is asked, on it and before it is. Only what expires
/// on day 2 covers anything, 1,000,000 cents.
const BY_EXPIRY: [(Call, Answer); 11] = [
    (Enrol(3, 1, 4), Done),
    (Apply(3, 1), Number(1)),
    (Release(0, 1), Refused(12)),
    (Release(0, 2), Refused(12)),
    (Release(1, 1), Refused(12)),
    (Release(0, 0), Number(1_000_000)),
    (Release(1, 0), Number(1_000_000)),
    (Deposit(3, 6_000_000), Number(6_000_000)),
    (Release(0, 1), Number(7_000_000)),
    (Release(0, 2), Number(6_000_000)),
    (Release(1, 1), Number(6_000_000)),
];

/// Pledges of accounts that this book does not know, and of one that it comes to know.
const STRANGE: [(Call, Answer); 14] = [
    (Enrol(0, 1, 4), Done),
    (Release(0, 9), Refused(5)),
    (Release(0, 63), Refused(5)),
    (Release(0, 64), Refused(5)),
    (Release(0, 127), Refused(5)),
    (Release(1, 9), Refused(5)),
    (Release(1, 63), Refused(5)),
    (Release(1, 64), Refused(5)),
    (Release(1, 127), Refused(5)),
    (Enrol(9, 1, 4), Done),
    (Release(0, 9), Number(9_000_000)),
    (Release(1, 9), Number(0)),
    (Enrol(63, 1, 4), Done),
    (Release(0, 63), Number(9_000_000)),
];

#[test]
fn limits_of_pledges(rt: HostRuntime) -> Result<(), Fail> {
    opened(&rt, rt.alloc())?.expect(&rt, &"pledges", &PLEDGES);
    Ok(())
}

#[test]
fn limits_of_releases(rt: HostRuntime) -> Result<(), Fail> {
    let heap = rt.alloc();
    opened(&rt, heap)?.expect(&rt, &"places", &RELEASES);
    opened(&rt, heap)?.expect(&rt, &"target", &DOWN_TO_THE_TARGET);
    Ok(())
}

#[test]
fn releases_by_expiry(rt: HostRuntime) -> Result<(), Fail> {
    let mut pair = opened(&rt, rt.alloc())?;
    pair.shelves.put_guarantee(0, 3, 10, 0);
    pair.shelves.put_guarantee(1, 3, 10, 1);
    pair.shelves.put_guarantee(2, 3, 10, 2);
    pair.shelves.put_bond(0, 3, 1, 0);
    pair.shelves.put_bond(1, 3, 1, 1);
    pair.expect(&rt, &"by expiry", &BY_EXPIRY);
    Ok(())
}

#[test]
fn releases_of_strange_accounts(rt: HostRuntime) -> Result<(), Fail> {
    let mut pair = opened(&rt, rt.alloc())?;
    for (place, account) in [(9, 9), (63, 63), (64, 64), (127, 255)] {
        pair.shelves.put_guarantee(place, account, 5, 2);
        pair.shelves.put_bond(place, account, 1, 2);
    }
    pair.expect(&rt, &"strange", &STRANGE);
    Ok(())
}

/// Every place of both shelves is one of its own.
#[test]
fn all_shelf_places(rt: HostRuntime) -> Result<(), Fail> {
    let mut pair = opened(&rt, rt.alloc())?;
    pair.expect_one(&rt, Enrol(5, 1, 4), Done);
    let mut cover: i128 = 0;
    for place in 0..128 {
        cover = cover.wrapping_add(100_000);
        pair.expect_one(&rt, Guarantee(5, place, 1, 2), Number(cover));
        cover = cover.wrapping_add(9_000_000);
        pair.expect_one(&rt, Bonds(5, place, 1, 2), Number(cover));
    }
    for place in 0..128 {
        pair.expect_one(&rt, Guarantee(5, place, 1, 2), Refused(4));
        pair.expect_one(&rt, Bonds(5, place, 1, 2), Refused(4));
        cover = cover.wrapping_sub(100_000);
        pair.expect_one(&rt, Release(0, place), Number(cover));
        cover = cover.wrapping_sub(9_000_000);
        pair.expect_one(&rt, Release(1, place), Number(cover));
    }
    assert_eq!(rt; cover, 0);
    Ok(())
}

// Where several causes fit a call on the shelves or on a notice, the first in the call's order is given. Behind each call
// stand all causes that fit it.
use super::call::Answer::{Done, Number, Refused, Short};
use super::call::Call::{
    Apply, Bonds, Deposit, Enrol, Examine, Guarantee, Offer, Open, Release, Return, Ten, Wait,
    WaitAstray, Withdraw,
};
use super::call::{Answer, Call};
use super::limits::{PRICES, opened};
use super::pair::Pair;
use super::shelves::Shelves;
use std::alloc::{AllocError, Global};
use std::fmt::Display;
use std::process::Abort;
use std::test::Fail;

/// On day 0. Place 5 of each shelf has a pledge.
const BLANK: [(Call, Answer); 26] = [
    (Guarantee(64, 5, 1, 0), Refused(1)), // 1 3 4 15
    (Guarantee(64, 0, 1, 0), Refused(1)), // 1 3 15
    (Guarantee(0, 128, 1, 0), Refused(1)), // 1 3 5 15
    (Guarantee(0, 128, 1, 1), Refused(1)), // 1 3 5
    (Guarantee(0, 5, 1, 0), Refused(3)), // 3 4 5 15
    (Guarantee(0, 5, 1, 1), Refused(3)), // 3 4 5
    (Guarantee(0, 0, 1, 0), Refused(3)), // 3 5 15
    (Guarantee(0, 0, 1, 1), Refused(3)), // 3 5
    (Bonds(64, 5, 1, 0), Refused(1)), // 1 3 4 15
    (Bonds(64, 0, 1, 1), Refused(1)), // 1 3
    (Bonds(0, 128, 1, 0), Refused(1)), // 1 3 5 15
    (Bonds(0, 5, 1, 0), Refused(3)), // 3 4 5 15
    (Bonds(0, 0, 1, 0), Refused(3)), // 3 5 15
    (Bonds(0, 0, 1, 1), Refused(3)), // 3 5
    (Release(2, 5), Refused(1)), // 1 3
    (Release(0, 128), Refused(1)), // 1 3
    (Release(1, 255), Refused(1)), // 1 3
    (Release(0, 5), Refused(3)), // 3 5
    (Release(1, 5), Refused(3)), // 3 5
    (Release(0, 0), Refused(3)), // 3 5
    (Ten, Refused(3)), // 3
    (Examine(64), Refused(1)), // 1 3
    (Examine(0), Refused(3)), // 3 5 9
    (Wait(0), Refused(9)), // 9
    (WaitAstray(63), Refused(9)), // 9
    (Open([1, 1, 1, 1, 1, 1, 1, 0]), Refused(2)), // 2
];

/// On day 1. Account 7 is 6,000,000 cents below its target. Of each shelf place 5 has its pledge with the expiry 1, and place
/// 6 one of account 9, which is empty, as is account 6.
const MORNING: [(Call, Answer); 28] = [
    (Guarantee(64, 5, 1, 0), Refused(1)), // 1 4 15
    (Guarantee(7, 128, 1, 1), Refused(1)), // 1 15
    (Guarantee(6, 128, 1, 2), Refused(1)), // 1 5
    (Guarantee(6, 5, 1, 0), Refused(4)), // 4 5 15
    (Guarantee(6, 5, 1, 2), Refused(4)), // 4 5
    (Guarantee(7, 5, 1, 1), Refused(4)), // 4 15
    (Guarantee(7, 5, 1, 2), Refused(4)), // 4
    (Guarantee(6, 0, 1, 1), Refused(5)), // 5 15
    (Guarantee(6, 0, 1, 2), Refused(5)), // 5
    (Guarantee(7, 0, 1, 1), Refused(15)), // 15
    (Bonds(64, 5, 1, 0), Refused(1)), // 1 4 15
    (Bonds(6, 128, 1, 2), Refused(1)), // 1 5
    (Bonds(6, 5, 1, 0), Refused(4)), // 4 5 15
    (Bonds(7, 5, 1, 1), Refused(4)), // 4 15
    (Bonds(6, 0, 1, 1), Refused(5)), // 5 15
    (Bonds(7, 0, 1, 1), Refused(15)), // 15
    (Release(2, 5), Refused(1)), // 1
    (Release(0, 128), Refused(1)), // 1
    (Release(0, 0), Refused(5)), // 5
    (Release(0, 6), Refused(5)), // 5
    (Release(1, 6), Refused(5)), // 5
    (Release(0, 5), Refused(12)), // 12
    (Release(1, 5), Refused(12)), // 12
    (Examine(64), Refused(1)), // 1 3
    (Examine(6), Refused(3)), // 3 5 9
    (Examine(7), Refused(3)), // 3 9
    (Wait(6), Refused(9)), // 9
    (Wait(7), Refused(9)), // 9
];

/// The same in the calling hour: account 7 has an open notice, and account 8 has none.
const CALLING: [(Call, Answer); 14] = [
    (Open([0; 8]), Refused(2)), // 2 3
    (Open(PRICES), Refused(3)), // 3
    (Enrol(7, 0, 8), Refused(1)), // 1 2 3 4
    (Enrol(7, 0, 4), Refused(2)), // 2 3 4
    (Enrol(7, 1, 4), Refused(3)), // 3 4
    (Offer(0, 4, 1, 351, 0), Refused(3)), // 3 8
    (Withdraw(0), Refused(3)), // 3 5
    (Apply(7, 1_000), Refused(3)), // 3 7
    (Return(7, 1), Refused(3)), // 3 7
    (Ten, Refused(3)), // 3
    (Examine(64), Refused(1)), // 1 9
    (Examine(6), Refused(5)), // 5 9
    (Examine(8), Refused(9)), // 9
    (Examine(7), Short(6_000_000, 7)),
];

/// And with a slip out for account 7. Place 4 of each shelf has a pledge of account 7 with the expiry 0.
const UNDER_A_SLIP: [(Call, Answer); 33] = [
    (Examine(7), Refused(9)), // 9
    (Deposit(64, 0), Refused(1)), // 1 2
    (Deposit(7, 0), Refused(2)), // 2 10
    (Deposit(6, 1), Refused(5)), // 5
    (Deposit(7, 1), Refused(10)), // 10
    (Guarantee(7, 128, 1, 0), Refused(1)), // 1 10 15
    (Guarantee(7, 5, 1, 0), Refused(4)), // 4 10 15
    (Guarantee(7, 5, 1, 2), Refused(4)), // 4 10
    (Guarantee(6, 0, 1, 0), Refused(5)), // 5 15
    (Guarantee(7, 0, 1, 1), Refused(10)), // 10 15
    (Guarantee(7, 0, 1, 2), Refused(10)), // 10
    (Guarantee(8, 0, 1, 1), Refused(15)), // 15
    (Bonds(7, 128, 1, 0), Refused(1)), // 1 10 15
    (Bonds(7, 5, 1, 0), Refused(4)), // 4 10 15
    (Bonds(6, 0, 1, 0), Refused(5)), // 5 15
    (Bonds(7, 0, 1, 1), Refused(10)), // 10 15
    (Bonds(7, 0, 1, 2), Refused(10)), // 10
    (Release(2, 5), Refused(1)), // 1
    (Release(0, 128), Refused(1)), // 1
    (Release(0, 0), Refused(5)), // 5
    (Release(0, 6), Refused(5)), // 5
    (Release(0, 5), Refused(10)), // 10 12
    (Release(1, 5), Refused(10)), // 10 12
    (Release(0, 4), Refused(10)), // 10
    (Release(1, 4), Refused(10)), // 10
    (Wait(6), Refused(9)), // 9
    (Wait(8), Refused(9)), // 9
    (Wait(7), Done),
    (Release(0, 5), Refused(12)), // 12
    (Release(1, 5), Refused(12)), // 12
    (Release(0, 4), Number(0)),
    (Release(1, 4), Number(0)),
    (Wait(7), Refused(9)), // 9
];

/// Whatever else fits, on a shelf that has not 128 places.
const CROOKED: [(Call, Answer); 12] = [
    (Guarantee(64, 128, 1, 0), Refused(1)),
    (Guarantee(6, 5, 1, 0), Refused(1)),
    (Guarantee(7, 0, 1, 2), Refused(1)),
    (Bonds(6, 5, 1, 0), Refused(1)),
    (Bonds(7, 0, 1, 2), Refused(1)),
    (Release(2, 128), Refused(1)),
    (Release(0, 0), Refused(1)),
    (Release(1, 5), Refused(1)),
    (Ten, Refused(1)),
    (Examine(7), Refused(1)),
    (Examine(64), Refused(1)),
    (Wait(7), Refused(9)),
];

const CROOKED_PLACES: [(usize, usize); 6] = [
    (127, 128),
    (128, 127),
    (129, 128),
    (128, 129),
    (0, 0),
    (0, 256),
];

/// Pledges of account 7 at the places 4 and 5, and of account 9 at 6.
fn lodge(pair: &mut Pair) {
    for (place, account, expiry) in [(4, 7, 0), (5, 7, 1), (6, 9, 2)] {
        pair.shelves.put_guarantee(place, account, 1, expiry);
        pair.shelves.put_bond(place, account, 1, expiry);
    }
}

fn with_accounts(rt: &impl Abort, heap: Global) -> Result<Pair, AllocError> {
    let mut pair = opened(rt, heap)?;
    lodge(&mut pair);
    pair.expect(
        rt,
        &"accounts",
        &[
            (Enrol(7, 1, 4), Done),
            (Apply(7, 1), Number(1)),
            (Enrol(8, 1, 4), Done),
        ],
    );
    Ok(pair)
}

/// Refuses all calls over crooked shelves, and has its own again afterwards.
fn refuse_crooked(
    rt: &impl Abort,
    what: &impl Display,
    pair: &mut Pair,
    heap: Global,
) -> Result<(), AllocError> {
    for (first, second) in CROOKED_PLACES {
        let crooked = Shelves::empty(first, second, heap)?;
        let whole = std::mem::replace(&mut pair.shelves, crooked);
        pair.expect(
            rt,
            &format_args!("{what}, {first} and {second} places"),
            &CROOKED,
        );
        pair.shelves = whole;
    }
    pair.look_at_all(rt, what);
    Ok(())
}

#[test]
fn the_first_cause_on_shelves_before_the_first_day(rt: HostRuntime) -> Result<(), Fail> {
    let mut pair = Pair::new(rt.alloc())?;
    lodge(&mut pair);
    pair.expect(&rt, &"blank", &BLANK);
    refuse_crooked(&rt, &"blank", &mut pair, rt.alloc())?;
    Ok(())
}

#[test]
fn the_first_cause_on_shelves_in_the_morning(rt: HostRuntime) -> Result<(), Fail> {
    let mut pair = with_accounts(&rt, rt.alloc())?;
    pair.expect(&rt, &"morning", &MORNING);
    refuse_crooked(&rt, &"morning", &mut pair, rt.alloc())?;
    pair.expect_one(&rt, Ten, Number(1));
    Ok(())
}

#[test]
fn the_first_cause_in_the_calling_hour(rt: HostRuntime) -> Result<(), Fail> {
    let mut pair = with_accounts(&rt, rt.alloc())?;
    pair.expect_one(&rt, Ten, Number(1));
    refuse_crooked(&rt, &"calling", &mut pair, rt.alloc())?;
    pair.expect(&rt, &"calling", &CALLING);
    pair.expect(&rt, &"under a slip", &UNDER_A_SLIP);
    refuse_crooked(
        &rt,
        &"with a notice that was left open",
        &mut pair,
        rt.alloc(),
    )?;
    Ok(())
}

// The calling hour worked out by hand: who is given a notice, and what examinations find. Units of the security 4, at 5,000
// cents for each share, have a floor and a target of 6,000,000 cents each.
use super::call::Answer::{Done, Met, Number, Refused, Short};
use super::call::Call::{
    Apply, Bonds, Deposit, Enrol, Examine, Guarantee, Offer, Open, Release, Return, Ten, Wait,
    WaitAstray, Withdraw,
};
use super::call::{Answer, Call};
use super::limits::{PRICES, opened, opened_with};
use super::pair::Pair;
use super::tried::{spent, told};
use std::alloc::{AllocError, Global};
use std::process::Abort;
use std::test::Fail;

/// Accounts 0, 3 and 5 come one cent below their floors, by cash, by a guarantee and by bonds, and accounts 1, 2 and 4 to
/// theirs. Account 6 asks for nothing and has nothing; account 63 asks for all that it may and has nothing. Of the security
/// 2, at 15 cents, 500 units have a floor of 9,000,000 cents and 501 one of 9,018,000.
const AROUND_THE_FLOOR: [(Call, Answer); 24] = [
    (Enrol(0, 1, 4), Done),
    (Apply(0, 1), Number(1)),
    (Deposit(0, 5_999_999), Number(5_999_999)),
    (Enrol(1, 1, 4), Done),
    (Apply(1, 1), Number(1)),
    (Deposit(1, 6_000_000), Number(6_000_000)),
    (Enrol(2, 1, 4), Done),
    (Apply(2, 1), Number(1)),
    (Guarantee(2, 0, 60, 2), Number(6_000_000)),
    (Enrol(3, 1, 4), Done),
    (Apply(3, 1), Number(1)),
    (Guarantee(3, 1, 59, 2), Number(5_900_000)),
    (Deposit(3, 99_999), Number(99_999)),
    (Enrol(4, 1, 2), Done),
    (Apply(4, 500), Number(500)),
    (Bonds(4, 0, 1, 2), Number(9_000_000)),
    (Enrol(5, 1, 2), Done),
    (Apply(5, 501), Number(501)),
    (Bonds(5, 1, 1, 2), Number(9_000_000)),
    (Deposit(5, 17_999), Number(17_999)),
    (Enrol(6, 1, 7), Done),
    (Enrol(63, 1, 7), Done),
    (Apply(63, 1_000), Number(1_000)),
    (Ten, Number(4)),
];

/// Accounts 0, 3, 5 and 63.
const FOUR_NOTICES: u64 = 9_223_372_036_854_775_849;

/// Account 63 alone.
const LAST_NOTICE: u64 = 9_223_372_036_854_775_808;

const SLIPS: [(Call, Answer); 22] = [
    (Examine(0), Short(1, 0)),
    (Examine(3), Short(1, 3)),
    (Examine(5), Short(1, 5)),
    (Examine(63), Short(1_200_000_000_000, 63)),
    (Examine(1), Refused(9)),
    (Examine(2), Refused(9)),
    (Examine(4), Refused(9)),
    (Examine(6), Refused(9)),
    (Examine(7), Refused(5)),
    (Examine(64), Refused(1)),
    (Examine(255), Refused(1)),
    (Examine(0), Refused(9)),
    (Deposit(0, 1), Refused(10)),
    (Guarantee(0, 9, 1, 2), Refused(10)),
    (Bonds(63, 9, 1, 2), Refused(10)),
    (Release(0, 1), Refused(10)),
    (Release(1, 1), Refused(10)),
    (Deposit(63, 1), Refused(10)),
    (Deposit(1, 1), Number(6_000_001)),
    (Guarantee(6, 9, 1, 2), Number(100_000)),
    (Release(0, 9), Number(0)),
    (Release(0, 0), Refused(12)),
];

const AROUND_THE_TARGET: [(Call, Answer); 25] = [
    (Wait(0), Done),
    (Wait(0), Refused(9)),
    (Deposit(0, 1), Number(6_000_000)),
    (Examine(0), Met),
    (Examine(0), Refused(9)),
    (Wait(0), Refused(9)),
    (Wait(3), Done),
    (Examine(3), Short(1, 3)),
    (WaitAstray(3), Done),
    (Wait(3), Refused(9)),
    (Examine(3), Short(1, 3)),
    (Wait(3), Done),
    (Guarantee(3, 2, 1, 2), Number(6_099_999)),
    (Examine(3), Met),
    (Release(0, 2), Refused(12)),
    (Wait(5), Done),
    (Deposit(5, 2), Number(18_001)),
    (Examine(5), Met),
    (Bonds(5, 2, 1, 2), Number(18_018_001)),
    (Release(1, 1), Number(9_018_001)),
    (Release(1, 2), Refused(12)),
    (Wait(63), Done),
    (Deposit(63, 1_199_999_999_998), Number(1_199_999_999_998)),
    (Examine(63), Short(2, 63)),
    (Wait(63), Done),
];

/// Calls for the morning alone, over account 0 with an open notice and an offer at the place 0, and one that is not.
const MORNING_ONLY: [(Call, Answer); 8] = [
    (Open(PRICES), Refused(3)),
    (Enrol(1, 1, 0), Refused(3)),
    (Offer(1, 4, 1, 0, 0), Refused(3)),
    (Withdraw(0), Refused(3)),
    (Apply(0, 1), Refused(3)),
    (Return(0, 1), Refused(3)),
    (Ten, Refused(3)),
    (Deposit(0, 1), Number(1)),
];

#[test]
fn around_floor_and_target(rt: HostRuntime) -> Result<(), Fail> {
    let mut pair = opened_with(&rt, &"floor", &AROUND_THE_FLOOR, rt.alloc())?;
    assert_eq!(rt; pair.book.notice_word(), FOUR_NOTICES);
    pair.expect(&rt, &"slips", &SLIPS);
    assert_eq!(rt; pair.book.notice_word(), FOUR_NOTICES, "held by slips");
    pair.expect(&rt, &"target", &AROUND_THE_TARGET);
    assert_eq!(rt; pair.book.notice_word(), LAST_NOTICE, "met but one");
    Ok(())
}

#[test]
fn hours_of_the_calling_hour(rt: HostRuntime) -> Result<(), Fail> {
    let start = [
        (Enrol(0, 1, 4), Done),
        (Apply(0, 1), Number(1)),
        (Offer(0, 4, 1, 0, 0), Done),
        (Examine(0), Refused(3)),
        (Ten, Number(1)),
    ];
    let mut pair = opened_with(&rt, &"start", &start, rt.alloc())?;
    pair.expect(&rt, &"morning only", &MORNING_ONLY);
    pair.expect_one(&rt, Examine(0), Short(5_999_999, 0));
    Ok(())
}

/// With nobody short there is a calling hour all the same.
#[test]
fn ten_without_accounts(rt: HostRuntime) -> Result<(), Fail> {
    let mut pair = opened(&rt, rt.alloc())?;
    pair.expect(
        &rt,
        &"no accounts",
        &[
            (Ten, Number(0)),
            (Ten, Refused(3)),
            (Examine(0), Refused(5)),
            (Wait(0), Refused(9)),
        ],
    );
    assert_eq!(rt; pair.book.notice_word(), 0);
    Ok(())
}

/// Every notice and every slip is one of its own.
#[test]
fn all_notices(rt: HostRuntime) -> Result<(), Fail> {
    let mut pair = opened(&rt, rt.alloc())?;
    for account in 0..64 {
        pair.expect_one(&rt, Enrol(account, 1, 4), Done);
        pair.expect_one(&rt, Apply(account, 1), Number(1));
    }
    pair.expect_one(&rt, Ten, Number(64));
    assert_eq!(rt; pair.book.notice_word(), u64::MAX);
    for account in 0..64 {
        pair.expect_one(&rt, Wait(account), Refused(9));
        pair.expect_one(&rt, Examine(account), Short(6_000_000, account));
        pair.expect_one(&rt, Examine(account), Refused(9));
    }
    assert_eq!(rt; pair.book.notice_word(), u64::MAX);
    for account in 0..64 {
        pair.expect_one(&rt, Deposit(account, 6_000_000), Refused(10));
        pair.expect_one(&rt, Wait(account), Done);
        pair.expect_one(&rt, Deposit(account, 6_000_000), Number(6_000_000));
        pair.expect_one(&rt, Examine(account), Met);
    }
    assert_eq!(rt; pair.book.notice_word(), 0);
    Ok(())
}

/// A book with account 0 short by 6,000,000 cents, and a slip out for it.
fn with_a_slip_out(rt: &impl Abort, heap: Global) -> Result<Pair, AllocError> {
    let calls = [
        (Enrol(0, 1, 4), Done),
        (Apply(0, 1), Number(1)),
        (Ten, Number(1)),
        (Examine(0), Short(6_000_000, 0)),
    ];
    opened_with(rt, &"a slip out", &calls, heap)
}

/// A slip that one book gave is spent on a blank one, which knows nothing of it: the first book's account stays under a slip.
#[test]
fn a_slip_of_another_book(rt: HostRuntime) -> Result<(), Fail> {
    let mut giver = with_a_slip_out(&rt, rt.alloc())?;
    let mut blank = Pair::new(rt.alloc())?;
    let kept = giver.slips.take(0);
    assert_eq!(rt; told(spent(&mut blank.book, kept)), Refused(9));
    blank.look_at_all(&rt, &"blank");
    giver.look_at_all(&rt, &"giver");
    giver.expect(
        &rt,
        &"under a slip",
        &[(Deposit(0, 1), Refused(10)), (Examine(0), Refused(9))],
    );
    // Any slip for the account lets it go.
    giver.expect(
        &rt,
        &"any slip",
        &[(WaitAstray(0), Done), (Deposit(0, 1), Number(1))],
    );
    blank.expect_one(&rt, Open(PRICES), Number(1));
    Ok(())
}

/// Two books with a slip out for the same account take each other's.
#[test]
fn slips_of_two_books(rt: HostRuntime) -> Result<(), Fail> {
    let mut one = with_a_slip_out(&rt, rt.alloc())?;
    let mut other = with_a_slip_out(&rt, rt.alloc())?;
    std::mem::swap(&mut one.slips, &mut other.slips);
    one.expect(&rt, &"one", &[(Wait(0), Done), (Wait(0), Refused(9))]);
    other.expect(
        &rt,
        &"other",
        &[(Deposit(0, 1), Refused(10)), (Wait(0), Done)],
    );
    other.expect_one(&rt, Deposit(0, 1), Number(1));
    Ok(())
}

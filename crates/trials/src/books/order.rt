// Where several causes fit, the first in the call's order is given. Behind each call stand all causes that fit it.
use super::call::Answer::{Done, Number, Refused};
use super::call::Call::{Apply, Deposit, Enrol, Offer, Open, Return, Withdraw};
use super::call::{Answer, Call};
use super::limits::{PRICES, nearly_fill, opened_with};
use super::pair::Pair;
use std::test::Fail;

/// Before the first day there are no prices, so no rate is held to one.
const BLANK: [(Call, Answer); 30] = [
    (Open([1, 1, 1, 1, 1, 1, 1, 0]), Refused(2)), // 2
    (Enrol(64, 0, 0), Refused(1)), // 1 2 3
    (Enrol(0, 0, 8), Refused(1)), // 1 2 3
    (Enrol(64, 1, 0), Refused(1)), // 1 3
    (Enrol(0, 1, 8), Refused(1)), // 1 3
    (Enrol(0, 10_000, 0), Refused(2)), // 2 3
    (Enrol(0, 1, 0), Refused(3)), // 3
    (Offer(256, 0, 0, 70_001, 11), Refused(1)), // 1 2 3
    (Offer(0, 8, 1, 70_000, 0), Refused(1)), // 1 3
    (Offer(256, 0, 1, 0, 0), Refused(1)), // 1 3
    (Offer(0, 0, 0, 0, 0), Refused(2)), // 2 3
    (Offer(0, 0, 1, 70_001, 0), Refused(2)), // 2 3
    (Offer(0, 0, 1, 0, 11), Refused(2)), // 2 3
    (Offer(0, 0, 1, 70_000, 0), Refused(3)), // 3
    (Withdraw(256), Refused(1)), // 1 3
    (Withdraw(0), Refused(3)), // 3 5
    (Apply(64, 0), Refused(1)), // 1 2 3
    (Apply(64, 1), Refused(1)), // 1 3
    (Apply(0, 0), Refused(2)), // 2 3 5
    (Apply(0, 1_001), Refused(2)), // 2 3 5 7
    (Apply(0, 1_000), Refused(3)), // 3 5
    (Return(64, 1_001), Refused(1)), // 1 2 3
    (Return(64, 1), Refused(1)), // 1 3
    (Return(0, 1_001), Refused(2)), // 2 3 5 7
    (Return(0, 1), Refused(3)), // 3 5 7
    (Deposit(64, 0), Refused(1)), // 1 2 3
    (Deposit(64, 1), Refused(1)), // 1 3
    (Deposit(0, 0), Refused(2)), // 2 3 5
    (Deposit(0, 10_000_000_000_001), Refused(2)), // 2 3 5
    (Deposit(0, 1), Refused(3)), // 3 5
];

/// Account 7 has a balance of 990,000,000,000,000 cents, place 0 has an offer, and the other places are empty.
const MORNING: [(Call, Answer); 42] = [
    (Open([1, 1, 1, 1, 1, 1, 1, 0]), Refused(2)), // 2 3
    (Open([1_000_001, 1, 1, 1, 1, 1, 1, 1]), Refused(2)), // 2 3
    (Open(PRICES), Refused(3)), // 3
    (Enrol(64, 0, 0), Refused(1)), // 1 2
    (Enrol(7, 0, 8), Refused(1)), // 1 2 4
    (Enrol(7, 1, 8), Refused(1)), // 1 4
    (Enrol(7, 10_000, 0), Refused(2)), // 2 4
    (Enrol(7, 1, 0), Refused(4)), // 4
    (Offer(256, 4, 0, 0, 0), Refused(1)), // 1 2
    (Offer(256, 4, 1, 351, 0), Refused(1)), // 1 8
    (Offer(0, 8, 1, 0, 0), Refused(1)), // 1 4
    (Offer(0, 8, 1_001, 70_001, 11), Refused(1)), // 1 2 4
    (Offer(256, 4, 1_001, 70_001, 11), Refused(1)), // 1 2 8
    (Offer(0, 4, 0, 0, 0), Refused(2)), // 2 4
    (Offer(0, 4, 1, 70_001, 0), Refused(2)), // 2 4 8
    (Offer(0, 4, 1_001, 351, 0), Refused(2)), // 2 4 8
    (Offer(1, 4, 1, 70_001, 0), Refused(2)), // 2 8
    (Offer(1, 4, 1, 351, 11), Refused(2)), // 2 8
    (Offer(0, 4, 1, 351, 0), Refused(4)), // 4 8
    (Offer(1, 4, 1, 351, 0), Refused(8)), // 8
    (Withdraw(256), Refused(1)), // 1
    (Withdraw(1), Refused(5)), // 5
    (Apply(64, 0), Refused(1)), // 1 2
    (Apply(64, 1_001), Refused(1)), // 1 2
    (Apply(6, 0), Refused(2)), // 2 5
    (Apply(6, 1_001), Refused(2)), // 2 5 7
    (Apply(6, 1_000), Refused(5)), // 5
    (Apply(7, 1), Number(1)),
    (Apply(7, 1_001), Refused(2)), // 2 7
    (Apply(7, 1_000), Refused(7)), // 7
    (Return(64, 1_001), Refused(1)), // 1 2
    (Return(6, 1_001), Refused(2)), // 2 5 7
    (Return(6, 0), Refused(2)), // 2 5
    (Return(6, 1), Refused(5)), // 5 7
    (Return(7, 1_001), Refused(2)), // 2 7
    (Return(7, 1), Refused(7)), // 7
    (Deposit(64, 0), Refused(1)), // 1 2
    (Deposit(6, 0), Refused(2)), // 2 5
    (Deposit(6, 10_000_000_000_001), Refused(2)), // 2 5
    (Deposit(6, 1), Refused(5)), // 5
    (Deposit(7, 10_000_000_000_001), Refused(2)), // 2 14
    (
        Deposit(7, 10_000_000_000_000),
        Number(1_000_000_000_000_000),
    ),
];

#[test]
fn the_first_cause_before_the_first_day(rt: HostRuntime) -> Result<(), Fail> {
    Pair::new(rt.alloc())?.expect(&rt, &"blank", &BLANK);
    Ok(())
}

#[test]
fn the_first_cause_in_the_morning(rt: HostRuntime) -> Result<(), Fail> {
    let start = [(Enrol(7, 1, 4), Done), (Offer(0, 4, 1, 0, 0), Done)];
    let mut pair = opened_with(&rt, &"start", &start, rt.alloc())?;
    nearly_fill(&rt, &mut pair);
    pair.expect(&rt, &"morning", &MORNING);
    pair.expect_one(&rt, Deposit(7, 1), Refused(14));
    Ok(())
}

// Each limit: one below it, at it and one above it, and the greatest number that the call takes. What is expected is written
// by hand.
use super::call::Answer::{Done, Number, Refused, Unpaid};
use super::call::Call::{Apply, Deposit, Enrol, Offer, Open, Return, Withdraw};
use super::call::{Answer, Call};
use super::pair::Pair;
use std::alloc::{AllocError, Global};
use std::fmt::Display;
use std::process::Abort;
use std::test::Fail;

/// A price for each security, so that each has other limits.
pub const PRICES: [u32; 8] = [1, 14, 15, 100, 5_000, 12_345, 999_999, 1_000_000];

const ENROLS: [(Call, Answer); 16] = [
    (Enrol(0, 0, 0), Refused(2)),
    (Enrol(0, 1, 0), Done),
    (Enrol(1, 9_999, 0), Done),
    (Enrol(2, 10_000, 0), Refused(2)),
    (Enrol(2, 65_535, 0), Refused(2)),
    (Enrol(62, 5, 3), Done),
    (Enrol(63, 5, 3), Done),
    (Enrol(64, 5, 3), Refused(1)),
    (Enrol(255, 5, 3), Refused(1)),
    (Enrol(3, 5, 6), Done),
    (Enrol(4, 5, 7), Done),
    (Enrol(5, 5, 8), Refused(1)),
    (Enrol(5, 5, 255), Refused(1)),
    (Enrol(5, 5, 7), Done),
    (Enrol(5, 5, 7), Refused(4)),
    (Enrol(63, 6, 2), Refused(4)),
];

const OFFERS: [(Call, Answer); 21] = [
    (Offer(254, 0, 1, 0, 0), Done),
    (Offer(255, 0, 1, 0, 0), Done),
    (Offer(256, 0, 1, 0, 0), Refused(1)),
    (Offer(65_535, 0, 1, 0, 0), Refused(1)),
    (Offer(0, 7, 1, 0, 0), Done),
    (Offer(1, 8, 1, 0, 0), Refused(1)),
    (Offer(1, 255, 1, 0, 0), Refused(1)),
    (Offer(1, 7, 0, 0, 0), Refused(2)),
    (Offer(1, 7, 1, 0, 0), Done),
    (Offer(2, 7, 999, 0, 0), Done),
    (Offer(3, 7, 1_000, 0, 0), Done),
    (Offer(4, 7, 1_001, 0, 0), Refused(2)),
    (Offer(4, 7, 65_535, 0, 0), Refused(2)),
    (Offer(4, 7, 1, 0, 9), Done),
    (Offer(5, 7, 1, 0, 10), Done),
    (Offer(6, 7, 1, 0, 11), Refused(2)),
    (Offer(6, 7, 1, 0, 255), Refused(2)),
    (Offer(6, 7, 1, 69_999, 0), Done),
    (Offer(7, 7, 1, 70_000, 0), Done),
    (Offer(8, 7, 1, 70_001, 0), Refused(2)),
    (Offer(8, 7, 1, 4_294_967_295, 0), Refused(2)),
];

/// Seven per cent of the eight prices are 0.07, 0.98, 1.05, 7, 350, 864.15, 69,999.93 and 70,000.
const RATES: [(Call, Answer); 23] = [
    (Offer(0, 0, 1, 0, 0), Done),
    (Offer(1, 0, 1, 1, 0), Refused(8)),
    (Offer(1, 1, 1, 0, 0), Done),
    (Offer(2, 1, 1, 1, 0), Refused(8)),
    (Offer(2, 2, 1, 1, 0), Done),
    (Offer(3, 2, 1, 2, 0), Refused(8)),
    (Offer(3, 3, 1, 6, 0), Done),
    (Offer(4, 3, 1, 7, 0), Done),
    (Offer(5, 3, 1, 8, 0), Refused(8)),
    (Offer(5, 4, 1, 349, 0), Done),
    (Offer(6, 4, 1, 350, 0), Done),
    (Offer(7, 4, 1, 351, 0), Refused(8)),
    (Offer(7, 4, 1, 70_000, 0), Refused(8)),
    (Offer(7, 4, 1, 70_001, 0), Refused(2)),
    (Offer(7, 5, 1, 863, 0), Done),
    (Offer(8, 5, 1, 864, 0), Done),
    (Offer(9, 5, 1, 865, 0), Refused(8)),
    (Offer(9, 6, 1, 69_998, 0), Done),
    (Offer(10, 6, 1, 69_999, 0), Done),
    (Offer(11, 6, 1, 70_000, 0), Refused(8)),
    (Offer(11, 7, 1, 69_999, 0), Done),
    (Offer(12, 7, 1, 70_000, 0), Done),
    (Offer(13, 7, 1, 70_001, 0), Refused(2)),
];

const WITHDRAWALS: [(Call, Answer); 12] = [
    (Withdraw(255), Refused(5)),
    (Withdraw(256), Refused(1)),
    (Withdraw(65_535), Refused(1)),
    (Offer(255, 4, 1_000, 350, 10), Done),
    (Withdraw(254), Refused(5)),
    (Withdraw(255), Unpaid(0, 0)),
    (Withdraw(255), Refused(5)),
    (Offer(255, 3, 1, 0, 0), Done),
    (Offer(255, 3, 1, 0, 0), Refused(4)),
    (Withdraw(255), Unpaid(0, 0)),
    (Offer(0, 3, 1, 0, 0), Done),
    (Withdraw(0), Unpaid(0, 0)),
];

const APPLICATIONS: [(Call, Answer); 20] = [
    (Enrol(0, 1, 4), Done),
    (Enrol(63, 1, 7), Done),
    (Apply(0, 0), Refused(2)),
    (Apply(0, 1), Number(1)),
    (Apply(0, 998), Number(999)),
    (Apply(0, 2), Refused(7)),
    (Apply(0, 1), Number(1_000)),
    (Apply(0, 1), Refused(7)),
    (Apply(0, 1_000), Refused(7)),
    (Apply(0, 1_001), Refused(2)),
    (Apply(63, 1_001), Refused(2)),
    (Apply(63, 65_535), Refused(2)),
    (Apply(63, 1_000), Number(1_000)),
    (Apply(63, 1), Refused(7)),
    (Apply(64, 1), Refused(1)),
    (Apply(255, 1), Refused(1)),
    (Apply(62, 1), Refused(5)),
    (Enrol(62, 1, 4), Done),
    (Apply(62, 999), Number(999)),
    (Apply(62, 1), Number(1_000)),
];

/// Nothing is owed, so nothing can be returned, not even what is applied for.
const RETURNS: [(Call, Answer); 13] = [
    (Enrol(0, 1, 4), Done),
    (Enrol(63, 1, 7), Done),
    (Return(0, 0), Refused(2)),
    (Return(0, 1), Refused(7)),
    (Return(0, 1_000), Refused(7)),
    (Return(0, 1_001), Refused(2)),
    (Return(0, 65_535), Refused(2)),
    (Apply(63, 10), Number(10)),
    (Return(63, 10), Refused(7)),
    (Return(63, 1), Refused(7)),
    (Return(62, 1), Refused(5)),
    (Return(64, 1), Refused(1)),
    (Return(255, 1), Refused(1)),
];

const DEPOSITS: [(Call, Answer); 13] = [
    (Enrol(0, 1, 4), Done),
    (Enrol(63, 1, 7), Done),
    (Deposit(0, 0), Refused(2)),
    (Deposit(0, 1), Number(1)),
    (Deposit(0, 10_000_000_000_000), Number(10_000_000_000_001)),
    (Deposit(0, 10_000_000_000_001), Refused(2)),
    (Deposit(0, 18_446_744_073_709_551_615), Refused(2)),
    (Deposit(0, 9_999_999_999_999), Number(20_000_000_000_000)),
    (Deposit(63, 2), Number(2)),
    (Deposit(63, 3), Number(5)),
    (Deposit(62, 1), Refused(5)),
    (Deposit(64, 1), Refused(1)),
    (Deposit(255, 1), Refused(1)),
];

/// From a balance of 990,000,000,000,000 cents on.
const LAST_DEPOSITS: [(Call, Answer); 8] = [
    (Deposit(7, 9_999_999_999_995), Number(999_999_999_999_995)),
    (Deposit(7, 6), Refused(14)),
    (Deposit(7, 10_000_000_000_000), Refused(14)),
    (Deposit(7, 5), Number(1_000_000_000_000_000)),
    (Deposit(7, 1), Refused(14)),
    (Deposit(7, 10_000_000_000_000), Refused(14)),
    (Deposit(7, 10_000_000_000_001), Refused(2)),
    (Deposit(8, 1), Number(1)),
];

/// Calls that nothing but the hour speaks against, and the refusal of each.
const TOO_EARLY: [(Call, Answer); 6] = [
    (Enrol(0, 1, 0), Refused(3)),
    (Offer(0, 0, 1, 0, 0), Refused(3)),
    (Withdraw(0), Refused(3)),
    (Apply(0, 1), Refused(3)),
    (Return(0, 1), Refused(3)),
    (Deposit(0, 1), Refused(3)),
];

/// A book in the morning of day 1.
pub(crate) fn opened(rt: &impl Abort, heap: Global) -> Result<Pair, AllocError> {
    let mut pair = Pair::new(heap)?;
    pair.expect_one(rt, Open(PRICES), Number(1));
    Ok(pair)
}

/// The same, after calls with the answers that both have to give.
pub(crate) fn opened_with(
    rt: &impl Abort,
    what: &impl Display,
    calls: &[(Call, Answer)],
    heap: Global,
) -> Result<Pair, AllocError> {
    let mut pair = opened(rt, heap)?;
    pair.expect(rt, what, calls);
    Ok(pair)
}

/// A hundred deposits of the most that one may be make the highest balance: here are 99, on account 7.
pub(crate) fn nearly_fill(rt: &impl Abort, pair: &mut Pair) {
    let mut balance: i128 = 0;
    for _ in 0..99 {
        balance = balance.wrapping_add(10_000_000_000_000);
        pair.expect_one(rt, Deposit(7, 10_000_000_000_000), Number(balance));
    }
}

fn with_price(security: usize, price: u32) -> [u32; 8] {
    let mut prices = PRICES;
    if let Some(slot) = prices.get_mut(security) {
        *slot = price;
    }
    prices
}

#[test]
fn limits_of_prices(rt: HostRuntime) -> Result<(), Fail> {
    for security in 0..8 {
        for good in [1, 2, 999_999, 1_000_000] {
            let mut pair = Pair::new(rt.alloc())?;
            for bad in [0, 1_000_001, 4_294_967_295] {
                pair.expect_one(&rt, Open(with_price(security, bad)), Refused(2));
            }
            pair.expect_one(&rt, Open(with_price(security, good)), Number(1));
        }
    }
    Ok(())
}

#[test]
fn limits_of_places_and_values(rt: HostRuntime) -> Result<(), Fail> {
    let heap = rt.alloc();
    opened(&rt, heap)?.expect(&rt, &"enrols", &ENROLS);
    opened(&rt, heap)?.expect(&rt, &"offers", &OFFERS);
    opened(&rt, heap)?.expect(&rt, &"rates", &RATES);
    opened(&rt, heap)?.expect(&rt, &"withdrawals", &WITHDRAWALS);
    opened(&rt, heap)?.expect(&rt, &"applications", &APPLICATIONS);
    opened(&rt, heap)?.expect(&rt, &"returns", &RETURNS);
    opened(&rt, heap)?.expect(&rt, &"deposits", &DEPOSITS);
    Ok(())
}

#[test]
fn limit_of_a_balance(rt: HostRuntime) -> Result<(), Fail> {
    let accounts = [(Enrol(7, 1, 4), Done), (Enrol(8, 2, 4), Done)];
    let mut pair = opened_with(&rt, &"accounts", &accounts, rt.alloc())?;
    nearly_fill(&rt, &mut pair);
    pair.expect(&rt, &"last deposits", &LAST_DEPOSITS);
    Ok(())
}

/// Every account place is one of its own, and so is every offer place.
#[test]
fn all_places(rt: HostRuntime) -> Result<(), Fail> {
    let mut pair = opened(&rt, rt.alloc())?;
    for account in 0..64 {
        pair.expect_one(&rt, Deposit(account, 1), Refused(5));
        pair.expect_one(&rt, Enrol(account, 9_999, account % 8), Done);
        pair.expect_one(&rt, Enrol(account, 1, 0), Refused(4));
        pair.expect_one(
            &rt,
            Deposit(account, u64::from(account) + 1),
            Number(i128::from(account) + 1),
        );
        pair.expect_one(
            &rt,
            Apply(account, u16::from(account) + 1),
            Number(i128::from(account) + 1),
        );
    }
    for place in 0..256 {
        pair.expect_one(&rt, Withdraw(place), Refused(5));
        pair.expect_one(&rt, Offer(place, 4, 1_000, 350, 10), Done);
        pair.expect_one(&rt, Offer(place, 7, 1, 0, 0), Refused(4));
    }
    for place in 0..256 {
        pair.expect_one(&rt, Withdraw(place), Unpaid(0, 0));
        pair.expect_one(&rt, Withdraw(place), Refused(5));
    }
    Ok(())
}

/// A blank book knows no account, refuses every call but the first opening, and is as new after that. In the morning it is
/// opened no second time.
#[test]
fn hours(rt: HostRuntime) -> Result<(), Fail> {
    let mut pair = Pair::new(rt.alloc())?;
    pair.look_at_all(&rt, &"a blank book");
    pair.expect(&rt, &"too early", &TOO_EARLY);
    pair.expect_one(&rt, Open(PRICES), Number(1));
    pair.expect_one(&rt, Open(PRICES), Refused(3));
    pair.expect_one(&rt, Withdraw(0), Refused(5));
    pair.expect_one(&rt, Deposit(0, 1), Refused(5));
    pair.expect_one(&rt, Enrol(0, 1, 0), Done);
    pair.expect_one(&rt, Open([1_000_000; 8]), Refused(3));
    pair.expect_one(&rt, Apply(0, 1), Number(1));
    Ok(())
}

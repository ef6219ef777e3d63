// Calls made by chance over many books, chosen by the hour that the book is in.
use super::call::Call;
use super::run::Run;
use super::shelves::Shelves;
use super::some::{good_prices, some_crooked_places, some_start};
use super::tally::{Kind, Row};
use std::alloc::AllocError;
use std::fmt::Display;
use std::process::Abort;
use std::test::Fail;

const SEED: u64 = 20_240_607;

/// The causes for which each call can be refused so far.
const CAUSES: [Row; 14] = [
    (Kind::Open, &[2, 3]),
    (Kind::Enrol, &[1, 2, 3, 4]),
    (Kind::Offer, &[1, 2, 3, 4, 8]),
    (Kind::Withdraw, &[1, 3, 5]),
    (Kind::Apply, &[1, 2, 3, 5, 7]),
    (Kind::Return, &[1, 2, 3, 5, 7]),
    (Kind::Deposit, &[1, 2, 3, 5, 10, 14]),
    (Kind::Guarantee, &[1, 3, 4, 5, 10, 15]),
    (Kind::Bonds, &[1, 3, 4, 5, 10, 15]),
    (Kind::Release, &[1, 3, 5, 10, 12]),
    (Kind::Ten, &[1, 3]),
    (Kind::ExamineShort, &[1, 3, 5, 9]),
    (Kind::Wait, &[9]),
    (Kind::ExamineMet, &[]),
];

/// A call that counts in the hour that the book is in, over shelves that change now and then. Of its own it never ends the
/// morning.
fn next_call(run: &mut Run) -> Call {
    if run.dice.one_in(8) {
        run.put_some_pledge();
    }
    if run.pair.second.is_morning() {
        run.some_morning_call()
    } else if run.pair.second.is_calling() {
        run.some_calling_call()
    } else {
        run.some_call()
    }
}

/// One of the first accounts, which most calls are for.
fn first_account(run: &mut Run) -> u8 {
    let few = run.few.min(12);
    run.dice.pick(few)
}

/// Calls over shelves with too few or too many places, which are then taken away again.
fn run_crooked(rt: &impl Abort, what: &impl Display, run: &mut Run) -> Result<(), AllocError> {
    let (guarantees, bonds) = some_crooked_places(&mut run.dice);
    let crooked = Shelves::empty(guarantees, bonds, run.heap)?;
    let whole = std::mem::replace(&mut run.pair.shelves, crooked);
    run.make(rt, what, Call::Ten)?;
    run.make_all(rt, &format_args!("{what}, call"), 4, Run::some_call)?;
    run.pair.shelves = whole;
    Ok(())
}

/// Some calls before the first day, then a start for most of the first accounts, and more in the morning.
fn to_the_morning(rt: &impl Abort, what: &impl Display, run: &mut Run) -> Result<(), AllocError> {
    run.make_all(
        rt,
        &format_args!("{what}, from the blank hour on, call"),
        12,
        next_call,
    )?;
    let prices = good_prices(&mut run.dice);
    run.make(rt, what, Call::Open(prices))?;
    if run.few == 1 {
        run.fill(rt, what);
    }
    run.make_all(rt, &format_args!("{what}, start"), 60, |run| {
        let account = first_account(run);
        some_start(&mut run.dice, account)
    })?;
    run.make_all(
        rt,
        &format_args!("{what}, in the morning, call"),
        100,
        next_call,
    )?;
    run_crooked(
        rt,
        &format_args!("{what}, over crooked shelves in the morning"),
        run,
    )
}

/// The calling hour after such a morning. Some of the first accounts are first brought to about their targets, which are
/// their floors while nothing is owed.
fn calling_hour(rt: &impl Abort, what: &impl Display, run: &mut Run) -> Result<(), AllocError> {
    run.make_all(rt, &format_args!("{what}, payment"), 3, |run| {
        let account = first_account(run);
        run.some_payment(account)
    })?;
    run.make(rt, what, Call::Ten)?;
    run.make_all(
        rt,
        &format_args!("{what}, in the calling hour, call"),
        120,
        next_call,
    )?;
    run_crooked(
        rt,
        &format_args!("{what}, over crooked shelves in the calling hour"),
        run,
    )?;
    run.wait_for_all(rt, what);
    Ok(())
}

/// A quarter of the books end with the morning, and show which offers stand.
#[test]
fn both_agree_on_calls_chosen_by_the_hour(rt: HostRuntime) -> Result<(), Fail> {
    let mut run = Run::new(SEED, rt.alloc())?;
    for round in 0..120 {
        let what = format_args!("seed {SEED}, book {round}");
        run.begin(round)?;
        to_the_morning(&rt, &what, &mut run)?;
        if round % 8 < 2 {
            run.empty_all(&rt, &what);
        } else {
            calling_hour(&rt, &what, &mut run)?;
        }
    }
    run.is_enough(&rt, &CAUSES);
    Ok(())
}

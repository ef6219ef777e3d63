// Calls made by chance, with values near the limits and between them, over many books.
use super::call::Call;
use super::run::Run;
use super::some::{Faces, good_prices};
use super::tally::{Kind, Row};
use std::alloc::AllocError;
use std::fmt::Display;
use std::process::Abort;
use std::test::Fail;

/// The causes for which each of these calls can be refused.
const CAUSES: [Row; 7] = [
    (Kind::Open, &[2, 3]),
    (Kind::Enrol, &[1, 2, 3, 4]),
    (Kind::Offer, &[1, 2, 3, 4, 8]),
    (Kind::Withdraw, &[1, 3, 5]),
    (Kind::Apply, &[1, 2, 3, 5, 7]),
    (Kind::Return, &[1, 2, 3, 5, 7]),
    (Kind::Deposit, &[1, 2, 3, 5, 14]),
];

const FACES: Faces = Faces {
    enrol: 2,
    offer: 6,
    withdraw: 8,
    apply: 10,
    give_back: 11,
};

/// A call that needs no shelf and no slip, over shelves that change now and then.
fn next_call(run: &mut Run) -> Call {
    if run.dice.one_in(4) {
        run.put_pledge(
            |dice| {
                if dice.one_in(4) {
                    u16::MAX
                } else {
                    dice.pick(4)
                }
            },
            |_| false,
        );
    }
    run.some_plain_call(&FACES, |dice| !dice.one_in(2))
}

/// Some calls before the first day, and more in its morning.
fn whole_book(rt: &impl Abort, what: &impl Display, run: &mut Run) -> Result<(), AllocError> {
    run.make_all(
        rt,
        &format_args!("{what}, before the first day, call"),
        6,
        next_call,
    )?;
    let prices = good_prices(&mut run.dice);
    run.make(rt, what, Call::Open(prices))?;
    if run.few == 1 {
        run.fill(rt, what);
    }
    run.make_all(
        rt,
        &format_args!("{what}, in the morning, call"),
        120,
        next_call,
    )?;
    run.empty_all(rt, what);
    Ok(())
}

#[test]
fn both_agree_on_calls_made_by_chance(rt: HostRuntime) -> Result<(), Fail> {
    let mut run = Run::new(20_240_607, rt.alloc())?;
    for round in 0..100 {
        run.begin(round)?;
        whole_book(&rt, &format_args!("book {round}"), &mut run)?;
    }
    run.is_enough(&rt, &CAUSES);
    Ok(())
}

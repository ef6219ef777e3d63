// What the book answers, in the form that is compared.
use super::call::{Answer, Call, Stated};
use super::shelves::Shelves;
use super::slips::{Kept, Slips, astray};
use book::{Book, Examined, Pledged, Refusal, Statement};
use kinds::{Bond, Guarantee};
use pledge::{BlockPrice, Pledge};
use shelf::Held;

/// The price of a block at which pledges are looked at.
pub const BLOCK_CENTS: u32 = 3;

/// Makes the call. A slip that it gives is kept.
pub(crate) fn answer_of(
    book: &mut Book,
    shelves: &mut Shelves,
    slips: &mut Slips,
    call: Call,
) -> Answer {
    let first = &mut shelves.guarantees;
    let second = &mut shelves.bonds;
    told(match call {
        Call::Open(prices) => book.open(prices).map(number),
        Call::Enrol(account, firm, security) => book.enrol(account, firm, security).map(done),
        Call::Offer(place, security, units, rate, commission) => {
            book.offer(place, security, units, rate, commission)
                .map(done)
        }
        Call::Withdraw(place) => book.withdraw(place).map(unpaid),
        Call::Apply(account, units) => book.apply(account, units).map(number),
        Call::Return(account, units) => book.return_units(account, units).map(number),
        Call::Deposit(account, cents) => book.deposit(account, cents).map(number),
        Call::Guarantee(account, place, thousands, expiry) => {
            let pledge = Guarantee::new(thousands, expiry).map(Pledged::First);
            pledged(book, first, second, account, place, pledge)
        }
        Call::Bonds(account, place, blocks, expiry) => {
            let pledge = Bond::new(blocks, expiry).map(Pledged::Second);
            pledged(book, first, second, account, place, pledge)
        }
        Call::Release(shelf, place) => book.release(first, second, shelf, place).map(number),
        Call::Ten => book.ten(first, second).map(number),
        Call::Examine(account) => book
            .examine(first, second, account)
            .map(|found| examined(found, slips)),
        Call::Wait(account) => spent(book, slips.take(account)),
        Call::WaitAstray(account) => spent(book, astray(account)),
    })
}

/// A refusal is told by its number.
pub(crate) fn told(answer: Result<Answer, Refusal>) -> Answer {
    answer.unwrap_or_else(|refusal| Answer::Refused(refusal.number()))
}

/// Pledges onto a book's shelves, if there is such a pledge.
pub(crate) fn pledged<P: Pledge, Q: Pledge>(
    book: &Book,
    first: &mut [Option<Held<P>>],
    second: &mut [Option<Held<Q>>],
    account: u8,
    place: u8,
    pledge: Option<Pledged<P, Q>>,
) -> Result<Answer, Refusal> {
    let Some(pledge) = pledge else {
        return Ok(Answer::NotMade);
    };
    book.pledge(first, second, account, place, pledge)
        .map(number)
}

/// Spends a slip on a book, if there is one.
pub(crate) fn spent(book: &mut Book, kept: Option<Kept>) -> Result<Answer, Refusal> {
    let Some(kept) = kept else {
        return Ok(Answer::NotMade);
    };
    book.wait(kept.slip()).map(done)
}

pub(crate) fn number<N: Into<i128>>(value: N) -> Answer {
    Answer::Number(value.into())
}

fn done(_: ()) -> Answer {
    Answer::Done
}

fn unpaid((lender, broker): (u64, u64)) -> Answer {
    Answer::Unpaid(i128::from(lender), i128::from(broker))
}

fn examined(found: Examined, slips: &mut Slips) -> Answer {
    match found {
        Examined::Met => Answer::Met,
        Examined::Short(lack, slip) => {
            let account = slip.account();
            slips.keep(account, Kept::new(slip));
            Answer::Short(i128::from(lack), account)
        }
    }
}

/// What stands at a place of a shelf: the account, the expiry, and what can be drawn, which shows the amount of any pledge.
pub(crate) fn seen<P: Pledge>(held: &Held<P>) -> (u8, u16, u64) {
    (held.account, held.pledge.expiry(), drawable(&held.pledge))
}

/// On day 0, so that no pledge has expired.
fn drawable<P: Pledge>(pledge: &P) -> u64 {
    BlockPrice::new(BLOCK_CENTS).map_or(0, |price| pledge.payable(0, price))
}

/// The statement of an account, or the number of its refusal.
pub(crate) fn statement_of<P: Pledge, Q: Pledge>(
    book: &Book,
    first: &[Option<Held<P>>],
    second: &[Option<Held<Q>>],
    account: u8,
) -> Result<Stated, u8> {
    book.statement(first, second, account)
        .map(Stated::from)
        .map_err(|refusal| refusal.number())
}

impl From<Statement> for Stated {
    fn from(told: Statement) -> Stated {
        Stated {
            owed: i128::from(told.loan.owed),
            applied: i128::from(told.loan.applied),
            barred: told.loan.barred,
            balance: i128::from(told.money.balance),
            cover: i128::from(told.money.cover),
            floor: i128::from(told.money.floor),
            target: i128::from(told.money.target),
            headroom: i128::from(told.money.headroom),
        }
    }
}

// The book and the second calculation, side by side over the same shelves.
use super::call::{Answer, Call};
use super::plain::Lodged;
use super::second::Second;
use super::shelves::Shelves;
use super::slips::Slips;
use super::tried::{BLOCK_CENTS, answer_of, seen, statement_of};
use book::Book;
use pledge::Pledge;
use shelf::Held;
use std::alloc::{AllocError, Global};
use std::fmt::Display;
use std::process::Abort;

#[derive(Drop)]
pub struct Pair {
    pub book: Book,
    pub second: Second,
    pub shelves: Shelves,
    pub slips: Slips,
}

// `rt` and `what` stay two parameters: each step adds words of its own to `what`, so a struct of both would be made anew at
// each.
impl Pair {
    /// A blank book, and empty shelves.
    pub(crate) fn new(heap: Global) -> Result<Pair, AllocError> {
        Ok(Pair {
            book: Book::new(),
            second: Second::new(),
            shelves: Shelves::empty(128, 128, heap)?,
            slips: Slips::none(),
        })
    }

    /// Makes a call on both, which answer alike and then stand alike.
    pub(crate) fn call(&mut self, rt: &impl Abort, what: &impl Display, call: Call) -> Answer {
        let answer = self.answer(rt, what, call);
        self.look_at_all(rt, &format_args!("{what}, after {call:?}"));
        answer
    }

    /// Makes a call on both, which answer alike.
    pub(crate) fn answer(&mut self, rt: &impl Abort, what: &impl Display, call: Call) -> Answer {
        let answer = self.second.answer(&mut self.shelves.plain, call);
        let told = answer_of(&mut self.book, &mut self.shelves, &mut self.slips, call);
        assert_eq!(rt; told, answer, "{what}, {call:?}");
        answer
    }

    /// Makes calls, each with the answer that both have to give.
    pub(crate) fn expect(
        &mut self,
        rt: &impl Abort,
        what: &impl Display,
        calls: &[(Call, Answer)],
    ) {
        for (i, (call, expected)) in calls.iter().enumerate() {
            self.expect_at(rt, &format_args!("{what}, call {i}"), *call, *expected);
        }
    }

    pub(crate) fn expect_one(&mut self, rt: &impl Abort, call: Call, expected: Answer) {
        self.expect_at(rt, &"one call", call, expected);
    }

    fn expect_at(&mut self, rt: &impl Abort, what: &impl Display, call: Call, expected: Answer) {
        assert_eq!(rt; self.call(rt, what, call), expected, "{what}, {call:?}");
    }

    /// The statements of all accounts, the notices and the shelves are alike; 64 and 255 are no accounts.
    pub(crate) fn look_at_all(&self, rt: &impl Abort, what: &impl Display) {
        for account in 0..65 {
            self.look_at(rt, what, account);
        }
        self.look_at(rt, what, 255);
        assert_eq!(rt;
            self.book.notice_word(),
            self.second.notice_word(),
            "{what}, notices"
        );
        self.look_at_shelves(rt, what);
    }

    /// The statements of an account are alike.
    pub(crate) fn look_at(&self, rt: &impl Abort, what: &impl Display, account: u8) {
        let told = statement_of(
            &self.book,
            &self.shelves.guarantees,
            &self.shelves.bonds,
            account,
        );
        assert_eq!(rt;
            told,
            self.second.statement(&self.shelves.plain, account),
            "{what}, statement of {account}"
        );
    }

    /// What stands on the shelves is alike, place by place.
    fn look_at_shelves(&self, rt: &impl Abort, what: &impl Display) {
        let shelves = &self.shelves;
        let plain = &shelves.plain;
        let what_first = format_args!("{what}, guarantees");
        look_at_shelf(
            rt,
            &what_first,
            &shelves.guarantees,
            &plain.guaranteed,
            100_000,
        );
        let what_second = format_args!("{what}, bonds");
        look_at_shelf(
            rt,
            &what_second,
            &shelves.bonds,
            &plain.bonded,
            u64::from(BLOCK_CENTS),
        );
    }
}

fn look_at_shelf<P: Pledge>(
    rt: &impl Abort,
    what: &impl Display,
    shelf: &[Option<Held<P>>],
    plain: &[Option<Lodged>],
    cents: u64,
) {
    assert_eq!(rt; shelf.len(), plain.len(), "{what}, places");
    for (place, (slot, known)) in shelf.iter().zip(plain).enumerate() {
        // Most places are empty, and a run looks at millions.
        if slot.is_none() && known.is_none() {
            continue;
        }
        let told = slot.as_ref().map(seen);
        let known = known.map(|lodged| lodged.seen(cents));
        assert_eq!(rt; told, known, "{what}, place {place}");
    }
}

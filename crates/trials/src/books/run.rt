// Calls made by chance over one book after the other, each call counted.
use super::call::Call;
use super::pair::Pair;
use super::some::TOP_DEPOSIT;
use super::tally::{Row, Tally};
use crate::dice::Dice;
use std::alloc::{AllocError, Global};
use std::fmt::Display;
use std::process::Abort;

#[derive(Drop)]
pub struct Run {
    pub dice: Dice,
    /// The book of this round.
    pub pair: Pair,
    /// Most of its calls are for so many of the first accounts.
    pub few: u64,
    pub heap: Global,
    tally: Tally,
}

impl Run {
    pub(crate) fn new(seed: u64, heap: Global) -> Result<Run, AllocError> {
        Ok(Run {
            dice: Dice::new(seed),
            pair: Pair::new(heap)?,
            few: 1,
            heap,
            tally: Tally::new(heap),
        })
    }

    /// Takes a blank book for the round.
    pub(crate) fn begin(&mut self, round: u64) -> Result<(), AllocError> {
        self.pair = Pair::new(self.heap)?;
        self.few = match round % 4 {
            0 => 1,
            1 => 4,
            2 => 12,
            _ => 64,
        };
        Ok(())
    }

    pub(crate) fn make(
        &mut self,
        rt: &impl Abort,
        what: &impl Display,
        call: Call,
    ) -> Result<(), AllocError> {
        let answer = self.pair.call(rt, what, call);
        self.tally.count(call, answer)
    }

    /// Makes so many calls, each the next that is asked for.
    pub(crate) fn make_all<F: FnMut(&mut Run) -> Call>(
        &mut self,
        rt: &impl Abort,
        what: &impl Display,
        calls: usize,
        mut next: F,
    ) -> Result<(), AllocError>
        requires { F.IsAlwaysCallable next }
    {
        for i in 0..calls {
            let call = next(self);
            self.make(rt, &format_args!("{what} {i}"), call)?;
        }
        Ok(())
    }

    /// Brings account 0 near the highest balance: chance alone would not get there.
    pub(crate) fn fill(&mut self, rt: &impl Abort, what: &impl Display) {
        let _ = self.pair.call(rt, what, Call::Enrol(0, 1, 0));
        for _ in 0..99 {
            let _ = self.pair.call(rt, what, Call::Deposit(0, TOP_DEPOSIT));
        }
    }

    /// No question shows the offers, so every place is asked for its own.
    pub(crate) fn empty_all(&mut self, rt: &impl Abort, what: &impl Display) {
        for place in 0..257 {
            let _ = self.pair.answer(rt, what, Call::Withdraw(place));
        }
        self.pair.look_at_all(rt, what);
    }

    /// No question shows the slips, so every account is asked for its own.
    pub(crate) fn wait_for_all(&mut self, rt: &impl Abort, what: &impl Display) {
        for account in 0..64 {
            let _ = self.pair.answer(rt, what, Call::Deposit(account, 1));
            let _ = self.pair.answer(rt, what, Call::Wait(account));
            let _ = self.pair.answer(rt, what, Call::Deposit(account, 1));
        }
        self.pair.look_at_all(rt, what);
    }

    /// Every call was made and refused often enough.
    pub(crate) fn is_enough(&self, rt: &impl Abort, rows: &[Row]) {
        self.tally.is_enough(rt, rows);
    }
}

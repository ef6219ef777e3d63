// The call that closes an account.
ghost use Rattle.table.specs.Act.{Acted};
ghost use Rattle.book.specs.Refunds.{refund_act};
ghost use Rattle.book.specs.Shelves.{both};
ghost use Rattle.book.specs.States.{state};

use crate::book::Book;
use margin::{Lengths, to_refund, vacate};
use pledge::Pledge;
use shelf::{Held, clear};
use table::Refusal;

impl Book {
    /// Pays an account's balance, hands back its pledges on both shelves, and empties its place. Answers the balance.
    pub fn refund<P: Pledge, Q: Pledge>(
        &mut self,
        first: &mut [Option<Held<P>>],
        second: &mut [Option<Held<Q>>],
        account: u8,
    ) -> Result<u64, Refusal>
        ensures { Acted (refund_act account) (state self.old.ledger.table (both first.old second.old)) (state self.new.ledger.table (both first.new second.new)) result }
    {
        let a = to_refund(
            &self.ledger,
            Lengths {
                first: first.len(),
                second: second.len(),
            },
            account,
        )?;
        clear(first, account);
        clear(second, account);
        Ok(vacate(&mut self.ledger, account, a))
    }
}

// The call that buys an account in.
ghost use Rattle.std.specs.Prelude.{◌≤◌, length, OnOk};
ghost use Rattle.shelf.specs.Limits.{shelf_places};
ghost use Rattle.book.specs.BuyIns.{ActedOn, BothDrawn, DrawnByRules, buy_in_act};
ghost use Rattle.book.specs.Shelves.{both};
ghost use Rattle.book.specs.States.{state};

use crate::book::Book;
use crate::handed_back::HandedBack;
use crate::slip::Slip;
use draw::draw_on;
use margin::{Execution, Lengths, Purchase, settle, to_buy_in};
use pledge::Pledge;
use shelf::Held;

impl Book {
    /// Spends a slip on an execution: buys the owed units, strikes off the applied ones, and pays the cost from the balance
    /// and, as far as that lacks, from the account's pledges. Answers the units bought and the balance. Refused, it hands the
    /// slip back.
    pub fn buy_in<P: Pledge, Q: Pledge>(
        &mut self,
        first: &mut [Option<Held<P>>],
        second: &mut [Option<Held<Q>>],
        slip: Slip,
        execution: Execution,
    ) -> Result<(u16, i64), HandedBack>
        ensures acted { ActedOn slip (buy_in_act P.Pledge.numbers Q.Pledge.numbers slip.account execution) (state self.old.ledger.table (both first.old second.old)) (state self.new.ledger.table (both first.new second.new)) result }
        ensures drawn { OnOk result (DrawnByRules P.Pledge.numbers Q.Pledge.numbers slip.account execution (state self.old.ledger.table (both first.old second.old))) }
    {
        // A match, not `map_err` and `?`: the slip can be had once only, and a closure that hands it back would keep it from here on.
        let purchase = match to_buy_in(
            &self.ledger,
            Lengths {
                first: first.len(),
                second: second.len(),
            },
            slip.account,
            execution,
        ) {
            Ok(purchase) => purchase,
            Err(why) => return Err(HandedBack { why, slip }),
        };
        let Slip { account } = slip;
        let yields = draw_both(first, second, account, self.ledger.table.day, purchase);
        let balance = settle(&mut self.ledger, account, purchase, yields);
        Ok((purchase.account.owed, balance))
    }
}

/// Draws on the account's pledges for what lacks, on the first shelf and then, for what still lacks, on the second. Answers
/// what they yield.
fn draw_both<P: Pledge, Q: Pledge>(
    first: &mut [Option<Held<P>>],
    second: &mut [Option<Held<Q>>],
    account: u8,
    day: u16,
    purchase: Purchase,
) -> u64
    requires first { length first.old ≤ shelf_places }
    requires second { length second.old ≤ shelf_places }
    ensures { BothDrawn P.Pledge.numbers Q.Pledge.numbers account day purchase.lack purchase.block_price.cents (both first.old second.old) (both first.new second.new) result }
{
    let price = purchase.block_price;
    let from_first = draw_on(first, account, purchase.lack, day, price);
    let still = purchase.lack.saturating_sub(from_first);
    let from_second = draw_on(second, account, still, day, price);
    from_first + from_second
}

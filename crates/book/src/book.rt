ghost use Rattle.std.specs.Prelude.{◌≡◌};
ghost use Rattle.table.specs.Tables.{blank_table};
ghost use Rattle.table.specs.Sound.{Begun};

use table::Ledger;

mod buy_ins;
mod calls;
mod collateral;
mod notices;
mod questions;
mod refunds;
mod slips;

/// A ledger that only the calls can change, and whose days have begun unless it is blank.
#[derive(Drop)]
pub struct Book {
    ledger: Ledger,
    ghost begun: { Begun ledger.table },
}

impl Book {
    /// A blank book on day 0, with every place empty.
    pub fn new() -> Book
        ensures { result.ledger.table ≡ blank_table }
    {
        Book {
            ledger: Ledger::blank(),
        }
    }
}

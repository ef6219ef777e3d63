// The calls that need no shelf.
ghost use Rattle.table.specs.Act.{Acted};
ghost use Rattle.table.specs.Days.{open_act};
ghost use Rattle.table.specs.Accounts.{enrol_act, apply_act, return_act, deposit_act};
ghost use Rattle.table.specs.Offers.{offer_act, withdraw_act};
ghost use Rattle.table.specs.Elevens.{eleven_act, pay_out_act};

use crate::book::Book;
use table::Refusal;

impl Book {
    /// Begins the next day with the prices of its eight securities, in cents for each share. Answers the day.
    pub fn open(&mut self, prices: [u32; 8]) -> Result<u16, Refusal>
        ensures { Acted (open_act prices) self.old.ledger.table self.new.ledger.table result }
    {
        self.ledger.open(prices)
    }

    /// Gives an account place to a firm and a security, at balance 0.
    pub fn enrol(&mut self, account: u8, firm: u16, security: u8) -> Result<(), Refusal>
        ensures { Acted (enrol_act account firm security) self.old.ledger.table self.new.ledger.table result }
    {
        self.ledger.enrol(account, firm, security)
    }

    /// Records an offer of units of a security, at a rate in cents for each share and day and the broker's commission in
    /// per cent.
    pub fn offer(
        &mut self,
        place: u16,
        security: u8,
        units: u16,
        rate: u32,
        commission: u8,
    ) -> Result<(), Refusal>
        ensures { Acted (offer_act place security units rate commission) self.old.ledger.table self.new.ledger.table result }
    {
        self.ledger.offer(place, security, units, rate, commission)
    }

    /// Ends an offer. Answers its unpaid earnings, the lender's part and the broker's.
    pub fn withdraw(&mut self, place: u16) -> Result<(u64, u64), Refusal>
        ensures { Acted (withdraw_act place) self.old.ledger.table self.new.ledger.table result }
    {
        self.ledger.withdraw(place)
    }

    /// Applies for units more. Answers all applied.
    pub fn apply(&mut self, account: u8, units: u16) -> Result<u16, Refusal>
        ensures { Acted (apply_act account units) self.old.ledger.table self.new.ledger.table result }
    {
        self.ledger.apply(account, units)
    }

    /// Takes units off the owed ones. Answers the rest. (The call is named return, which is a word of the language.)
    pub fn return_units(&mut self, account: u8, units: u16) -> Result<u16, Refusal>
        ensures { Acted (return_act account units) self.old.ledger.table self.new.ledger.table result }
    {
        self.ledger.return_units(account, units)
    }

    /// Puts cents on an account. Answers the balance.
    pub fn deposit(&mut self, account: u8, cents: u64) -> Result<i64, Refusal>
        ensures { Acted (deposit_act account cents) self.old.ledger.table self.new.ledger.table result }
    {
        self.ledger.deposit(account, cents)
    }

    /// Lends, charges and begins the afternoon. Answers all fees and all voucher units.
    pub fn eleven(&mut self) -> Result<(u64, u64), Refusal>
        ensures { Acted eleven_act self.old.ledger.table self.new.ledger.table result }
    {
        self.ledger.eleven()
    }

    /// Pays what an offer earned. Answers the lender's part and the broker's.
    pub fn pay_out(&mut self, place: u16) -> Result<(u64, u64), Refusal>
        ensures { Acted (pay_out_act place) self.old.ledger.table self.new.ledger.table result }
    {
        self.ledger.pay_out(place)
    }
}

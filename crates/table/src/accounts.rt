// Calls on one account, which is changed in its place.
ghost use Rattle.std.specs.Prelude.{◌≡◌, ◌≤◌, true, pos, ◌+ℤ◌, ◌≤ℤ◌};
ghost use Rattle.lending.specs.Sound.{top_balance, lowest};
ghost use Rattle.table.specs.Sound.{Begun};
ghost use Rattle.table.specs.Act.{Acted};
ghost use Rattle.table.specs.Limits.{top_deposit, last_day};
ghost use Rattle.table.specs.Accounts.{enrol_act, apply_act, return_act, deposit_act};

use super::hour::Hour;
use super::ledger::Ledger;
use super::limits::{ACCOUNT_PLACES, SECURITIES, TOP_BALANCE, TOP_DEPOSIT, TOP_FIRM, TOP_UNITS};
use super::refusal::Refusal;
use lending::Account;

impl Ledger {
    /// Gives a place to a firm and a security, at balance 0.
    pub fn enrol(&mut self, account: u8, firm: u16, security: u8) -> Result<(), Refusal>
        ensures acted { Acted (enrol_act account firm security) self.old.table self.new.table result }
        ensures begun { Begun self.old.table → Begun self.new.table }
    {
        if account >= ACCOUNT_PLACES || security >= SECURITIES {
            return Err(Refusal::NoSuchPlace);
        }
        if !(1..=TOP_FIRM).contains(&firm) {
            return Err(Refusal::OutOfRange);
        }
        if self.table.hour != Hour::Morning {
            return Err(Refusal::WrongHour);
        }
        if self.account(account).is_some() {
            return Err(Refusal::PlaceTaken);
        }
        self.table.accounts[account as usize] = Some(Account {
            firm,
            security,
            owed: 0,
            applied: 0,
            barred: false,
            balance: 0,
        });
        Ok(())
    }

    /// Adds applied units, and answers all applied.
    pub fn apply(&mut self, account: u8, units: u16) -> Result<u16, Refusal>
        ensures acted { Acted (apply_act account units) self.old.table self.new.table result }
        ensures begun { Begun self.old.table → Begun self.new.table }
    {
        if account >= ACCOUNT_PLACES {
            return Err(Refusal::NoSuchPlace);
        }
        if !(1..=TOP_UNITS).contains(&units) {
            return Err(Refusal::OutOfRange);
        }
        if self.table.hour != Hour::Morning {
            return Err(Refusal::WrongHour);
        }
        let Some(a) = self.account(account) else {
            return Err(Refusal::PlaceEmpty);
        };
        if a.barred {
            return Err(Refusal::Barred);
        }
        if a.owed + a.applied + units > TOP_UNITS {
            return Err(Refusal::UnitsOutOfReach);
        }
        let applied = a.applied + units;
        if let Some(stored) = &mut self.table.accounts[account as usize] {
            stored.applied = applied;
        }
        Ok(applied)
    }

    /// Takes units off the owed ones, and answers the rest.
    pub fn return_units(&mut self, account: u8, units: u16) -> Result<u16, Refusal>
        ensures acted { Acted (return_act account units) self.old.table self.new.table result }
        ensures begun { Begun self.old.table → Begun self.new.table }
    {
        if account >= ACCOUNT_PLACES {
            return Err(Refusal::NoSuchPlace);
        }
        if !(1..=TOP_UNITS).contains(&units) {
            return Err(Refusal::OutOfRange);
        }
        if self.table.hour != Hour::Morning {
            return Err(Refusal::WrongHour);
        }
        let Some(a) = self.account(account) else {
            return Err(Refusal::PlaceEmpty);
        };
        if units > a.owed {
            return Err(Refusal::UnitsOutOfReach);
        }
        let owed = a.owed - units;
        if let Some(stored) = &mut self.table.accounts[account as usize] {
            stored.owed = owed;
        }
        Ok(owed)
    }

    /// Adds cents to the balance, and answers it.
    pub fn deposit(&mut self, account: u8, cents: u64) -> Result<i64, Refusal>
        ensures acted { Acted (deposit_act account cents) self.old.table self.new.table result }
        ensures begun { Begun self.old.table → Begun self.new.table }
    {
        if account >= ACCOUNT_PLACES {
            return Err(Refusal::NoSuchPlace);
        }
        if !(1..=TOP_DEPOSIT).contains(&cents) {
            return Err(Refusal::OutOfRange);
        }
        if self.table.hour == Hour::Blank {
            return Err(Refusal::WrongHour);
        }
        let Some(a) = self.account(account) else {
            return Err(Refusal::PlaceEmpty);
        };
        if self.table.slips.contains(account) {
            return Err(Refusal::UnderSlip);
        }
        let balance = raised(a.balance, cents);
        if balance > TOP_BALANCE {
            return Err(Refusal::BalanceTooHigh);
        }
        if let Some(stored) = &mut self.table.accounts[account as usize] {
            stored.balance = balance;
        }
        Ok(balance)
    }
}

/// A balance with cents on it.
// Its bounds stand here: how low it can be depends on the elevens of the ledger, which an account by itself does not tell.
fn raised(balance: i64, cents: u64) -> i64
    requires low { lowest last_day true ≤ℤ balance }
    requires high { balance ≤ℤ pos top_balance }
    requires cents { cents ≤ top_deposit }
    ensures { result ≡ balance +ℤ pos cents }
{
    balance + cents as i64
}

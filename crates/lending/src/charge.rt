// The need of each security, and what its accounts pay for it.
ghost use Rattle.std.specs.Prelude.{◌≡◌, ℕ, ◌+◌, ◌-◌, ◌*◌, ◌≤◌, IfSome, slice_index};
ghost use Rattle.std.specs.Option.{option_map};
ghost use Rattle.lending.specs.Measures.{shares, top_units};
ghost use Rattle.lending.specs.Sound.{account_places, top_rate, top_elevens, SoundAccount, SoundAccounts};
ghost use Rattle.lending.specs.Lending.{at, units_in, need_of, share, charged};
ghost use Rattle.lending.specs.Eleven.{pays_at};
ghost use Rattle.lending.specs.Steps.{pays};

use crate::account::Account;
use crate::sizes::{ACCOUNT_PLACES, SECURITIES};

/// The need of each security: the units that its accounts owe and apply for.
pub(crate) fn needs(accounts: &[Option<Account>; ACCOUNT_PLACES]) -> [u64; SECURITIES]
    requires { SoundAccounts top_elevens accounts.now }
    ensures { (s : ℕ) → slice_index result s ≡ need_of accounts.now s }
{
    let mut needs = [0; SECURITIES];
    for account in accounts {
        count(*account, &mut needs);
    }
    needs
}

/// The accounts of each security pay what its offers earned, in rising place, and their units are lent.
pub(crate) fn charge(
    accounts: &mut [Option<Account>; ACCOUNT_PLACES],
    needs: &[u64; SECURITIES],
    earned: &[u64; SECURITIES],
)
    requires need { (s : ℕ) → slice_index needs.now s ≡ need_of accounts.old s }
    requires most { (s : ℕ) → slice_index earned.now s ≤ shares * top_rate * slice_index needs.now s }
    requires sound { SoundAccounts top_elevens accounts.old }
    ensures { (k : ℕ) → at accounts.new k ≡ option_map (λ a. charged a (pays_at accounts.old (λ s. slice_index earned.now s) k (at accounts.old k))) (at accounts.old k) }
{
    let mut earlier = [0; SECURITIES];
    for slot in accounts {
        let before = *slot;
        pay(slot, needs, earned, &earlier);
        count(before, &mut earlier);
    }
}

/// Adds the units of an account to those of its security.
fn count(slot: Option<Account>, units: &mut [u64; SECURITIES])
    requires room { (s : ℕ) → slice_index units.old s ≤ account_places * top_units }
    requires sound { IfSome slot (SoundAccount top_elevens) }
    ensures { (s : ℕ) → slice_index units.new s ≡ slice_index units.old s + units_in s slot }
{
    if let Some(account) = slot {
        units[account.security as usize] += (account.owed + account.applied) as u64;
    }
}

/// An account pays its fee, where the accounts before it have `earlier` units, and its units are lent.
fn pay(
    slot: &mut Option<Account>,
    needs: &[u64; SECURITIES],
    earned: &[u64; SECURITIES],
    earlier: &[u64; SECURITIES],
)
    requires within { (s : ℕ) → slice_index earlier.now s + units_in s slot.old ≤ slice_index needs.now s }
    requires need { (s : ℕ) → slice_index needs.now s ≤ account_places * top_units }
    requires most { (s : ℕ) → slice_index earned.now s ≤ shares * top_rate * slice_index needs.now s }
    requires sound { IfSome slot.old (SoundAccount top_elevens) }
    ensures { slot.new ≡ option_map (λ a. charged a (pays earned.now needs.now earlier.now slot.old)) slot.old }
{
    if let Some(account) = slot {
        let security = account.security as usize;
        account.owed += account.applied;
        account.applied = 0;
        let bill = Bill {
            all: earned[security],
            need: needs[security],
        };
        account.balance -= bill.fee(earlier[security], account.owed as u64) as i64;
    }
}

/// What the accounts of a security pay together, for the units of its need.
// It is made for one account at a time: an array of them would need a bill of no security in each clause.
#[derive(Clone, Copy)]
struct Bill {
    all: u64,
    need: u64,
    ghost few: { need ≤ account_places * top_units },
    ghost most: { all ≤ shares * top_rate * need },
}

impl Bill {
    /// What `units` pay that come after `earlier` ones: the parts of all units add up to all.
    fn fee(self, earlier: u64, units: u64) -> u64
        requires { earlier + units ≤ self.need }
        ensures value { result ≡ share self.all (earlier + units) self.need - share self.all earlier self.need }
        ensures most { result ≤ shares * top_rate * units }
    {
        self.part(earlier + units) - self.part(earlier)
    }

    /// The part of all that the first `units` pay, rounded down.
    fn part(self, units: u64) -> u64
        requires { units ≤ self.need }
        ensures { result ≡ share self.all units self.need }
    {
        if self.need == 0 {
            0
        } else {
            self.all * units / self.need
        }
    }
}

// The lending at eleven o'clock.
// The tables are the caller's plain arrays, and each step says what is sound of the one that it reads: a type that promised
// it would be made anew for each step.
ghost use Rattle.std.specs.Prelude.{◌≡◌, ℕ, ◌+◌};
ghost use Rattle.lending.specs.Sound.{top_elevens, SoundAccounts, SoundOffers};
ghost use Rattle.lending.specs.Eleven.{all_fees, all_vouchers, accounts_after, offers_after};

use crate::account::Account;
use crate::charge::{charge, needs};
use crate::lend::{given, lend};
use crate::offer::Offer;
use crate::sizes::{ACCOUNT_PLACES, OFFER_PLACES};

/// Offers give what the accounts need, and earn for it what the accounts pay:
/// the cents of all fees, and the units that go by voucher since no offer gives them.
pub fn eleven(
    accounts: &mut [Option<Account>; ACCOUNT_PLACES],
    offers: &mut [Option<Offer>; OFFER_PLACES],
) -> (u64, u64)
    requires loans { SoundAccounts top_elevens accounts.old }
    requires lenders { SoundOffers top_elevens offers.old }
    ensures fees { result.0 ≡ all_fees accounts.old offers.old }
    ensures vouchers { result.1 ≡ all_vouchers accounts.old offers.old }
    ensures accounts { accounts.new ≡ accounts_after accounts.old offers.old }
    ensures offers { offers.new ≡ offers_after accounts.old offers.old }
    ensures loans { (elevens : ℕ) → SoundAccounts elevens accounts.old → SoundOffers elevens offers.old → SoundAccounts (elevens + 1) accounts.new }
    ensures lenders { (elevens : ℕ) → SoundAccounts elevens accounts.old → SoundOffers elevens offers.old → SoundOffers (elevens + 1) offers.new }
{
    let needs = needs(accounts);
    let mut left = needs;
    let given = given(offers, &mut left);
    let earned = lend(offers, &given);
    charge(accounts, &needs, &earned);
    (earned.iter().sum(), left.iter().sum())
}

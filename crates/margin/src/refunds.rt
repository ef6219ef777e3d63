// Paying an account out and closing it.
ghost use Rattle.std.specs.Prelude.{◌≡◌, IfOk, None};
ghost use Rattle.table.specs.Sound.{Begun};
ghost use Rattle.table.specs.Act.{Found, first as first_cause};
ghost use Rattle.table.specs.Tables.{account_at, with_account};
ghost use Rattle.margin.specs.Refunds.{Refundable, cents_of, refund_causes};

use crate::lengths::Lengths;
use lending::Account;
use table::{ACCOUNT_PLACES, Hour, Ledger, Refusal};

/// The account that is to be paid out and closed, or why it is not.
pub fn to_refund(ledger: &Ledger, lengths: Lengths, account: u8) -> Result<Account, Refusal>
    ensures found { Found (first_cause (refund_causes lengths.first lengths.second account ledger.now.table)) (account_at ledger.now.table account) result }
    ensures known { IfOk result (λ a. Refundable ledger.now.table account a) }
{
    if !lengths.are_whole() || account >= ACCOUNT_PLACES {
        return Err(Refusal::NoSuchPlace);
    }
    if ledger.table.hour != Hour::Afternoon {
        return Err(Refusal::WrongHour);
    }
    let Some(a) = ledger.account(account) else {
        return Err(Refusal::PlaceEmpty);
    };
    if a.owed + a.applied > 0 || a.balance < 0 {
        return Err(Refusal::NotSettled);
    }
    Ok(a)
}

/// Empties the account's place, and answers the balance that is paid.
pub fn vacate(ledger: &mut Ledger, account: u8, a: Account) -> u64
    requires known { Refundable ledger.old.table account a }
    ensures value { result ≡ cents_of a.balance }
    ensures done { ledger.new.table ≡ with_account ledger.old.table account None }
    ensures begun { Begun ledger.old.table → Begun ledger.new.table }
{
    ledger.table.accounts[account as usize] = None;
    a.balance as u64
}

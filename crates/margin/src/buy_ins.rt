// Buying in: what it costs, and what it leaves of an account.
ghost use Rattle.std.specs.Prelude.{◌≡◌, ◌*◌, ◌<◌, ◌≤◌, true, pos, ◌≤ℤ◌};
ghost use Rattle.std.specs.Option.{option_map};
ghost use Rattle.lending.specs.Measures.{top_units};
ghost use Rattle.lending.specs.Sound.{account_places, lowest, top_balance, top_charges, top_cost, top_share_price};
ghost use Rattle.shelf.specs.Limits.{top_cover};
ghost use Rattle.table.specs.Sound.{Begun};
ghost use Rattle.table.specs.Act.{first as first_cause};
ghost use Rattle.table.specs.Limits.{last_day};
ghost use Rattle.margin.specs.BuyIns.{PurchaseFound, Settles, barred_at, bought_in, buy_in_causes, cost_at, passes, settled};

use crate::execution::Execution;
use crate::lengths::Lengths;
use crate::purchase::Purchase;
use lending::{Account, SHARES};
use pledge::BlockPrice;
use table::{Ledger, Refusal};

/// The highest share price, in cents.
const TOP_SHARE_PRICE: u32 = 2_000_000;
/// The most cents of charges.
const TOP_CHARGES: u64 = 1_000_000_000;

/// What is bought for an account that a slip is out for, or why it is not. The shelves have so many places.
pub fn to_buy_in(
    ledger: &Ledger,
    lengths: Lengths,
    account: u8,
    execution: Execution,
) -> Result<Purchase, Refusal>
    requires known { account < account_places }
    ensures { PurchaseFound (first_cause (buy_in_causes lengths.first lengths.second account execution ledger.now.table)) ledger.now.table lengths.first lengths.second account execution result }
{
    if !lengths.are_whole() {
        return Err(Refusal::NoSuchPlace);
    }
    if !(1..=TOP_SHARE_PRICE).contains(&execution.share_price) || execution.charges > TOP_CHARGES {
        return Err(Refusal::OutOfRange);
    }
    let Some(block_price) = BlockPrice::new(execution.block_price) else {
        return Err(Refusal::OutOfRange);
    };
    if !ledger.table.slips.contains(account) {
        return Err(Refusal::NoNotice);
    }
    let Some(a) = ledger.account(account) else {
        return Err(Refusal::NoNotice);
    };
    let cost = cost(a.owed, execution.share_price, execution.charges);
    Ok(Purchase {
        account: a,
        block_price,
        cost,
        lack: lack(a.balance, cost),
    })
}

// The most that a purchase costs is told once and asked for by two sums: the cost is one field of a purchase among others, and
// the sums take it as the number that it is.
/// What so many units cost, with charges.
fn cost(owed: u16, share_price: u32, charges: u64) -> u64
    requires units { owed ≤ top_units }
    requires price { share_price ≤ top_share_price }
    requires charges { charges ≤ top_charges }
    ensures value { result ≡ cost_at owed share_price charges }
    ensures most { result ≤ top_cost }
{
    if owed == 0 {
        0
    } else {
        SHARES * (owed as u64 * share_price as u64) + charges
    }
}

// The bounds of a balance stand at both sums, as in `measures`: an account by itself does not tell them.
/// By how much a cost passes a balance.
fn lack(balance: i64, cost: u64) -> u64
    requires low { lowest last_day true ≤ℤ balance }
    requires high { balance ≤ℤ pos top_balance }
    requires cost { cost ≤ top_cost }
    ensures { result ≡ passes balance cost }
{
    let left = balance - cost as i64;
    if left < 0 { (-left) as u64 } else { 0 }
}

/// Strikes off the account's units, takes the cost off its balance and puts on what its pledges yielded, bars it, and closes
/// its notice. Answers the balance.
pub fn settle(ledger: &mut Ledger, account: u8, purchase: Purchase, yields: u64) -> i64
    requires known { account < account_places }
    requires settles { Settles ledger.old.table account purchase yields }
    ensures value { result ≡ settled purchase.account.balance purchase.cost yields }
    ensures done { ledger.new.table ≡ bought_in account purchase.cost yields ledger.old.table }
    ensures begun { Begun ledger.old.table → Begun ledger.new.table }
{
    let balance = after(purchase.account.balance, purchase.cost, yields);
    bar(&mut ledger.table.accounts[account as usize], balance);
    ledger.table.notices.remove(account);
    ledger.table.slips.remove(account);
    balance
}

/// A balance with a cost off it, and with what pledges yielded.
fn after(balance: i64, cost: u64, yields: u64) -> i64
    requires low { lowest last_day true ≤ℤ balance }
    requires high { balance ≤ℤ pos top_balance }
    requires cost { cost ≤ top_cost }
    requires yields { yields ≤ 2 * top_cover }
    ensures { result ≡ settled balance cost yields }
{
    balance - cost as i64 + yields as i64
}

fn bar(slot: &mut Option<Account>, balance: i64)
    ensures { slot.new ≡ option_map (barred_at balance) slot.old }
{
    if let Some(a) = slot {
        a.owed = 0;
        a.applied = 0;
        a.barred = true;
        a.balance = balance;
    }
}

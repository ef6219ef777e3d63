// Notices: given at ten, examined, and left open.
ghost use Rattle.std.specs.Prelude.{◌≡◌, ℕ, ◌*◌, ◌<◌, ◌≤◌, length, IfOk, Some, OnOk, count_ones, slice_index};
ghost use Rattle.lending.specs.Sound.{SoundAccount, account_places};
ghost use Rattle.shelf.specs.Limits.{top_cover, shelf_places};
ghost use Rattle.table.specs.declared.hour.Hour.TheVariants.{Morning};
ghost use Rattle.table.specs.Sound.{Begun};
ghost use Rattle.table.specs.Act.{Acted, Answered, Found, first as first_cause};
ghost use Rattle.table.specs.Tables.{account_at, elevens};
ghost use Rattle.margin.specs.Margins.{Lacks, covered, short, target_on};
ghost use Rattle.margin.specs.Notices.{Callable, Examinable, called, examine_causes, examined, short_among, ten_causes, wait_act};

use crate::lengths::Lengths;
use crate::measures::{cover, is_below, shortfall};
use crate::pledged_cents::PledgedCents;
use bits::Places;
use lending::{Account, floor, target};
use table::{ACCOUNT_PLACES, Hour, Ledger, Refusal, Table};

/// Whether ten may be called, with shelves of so many places.
pub fn to_ten(table: &Table, lengths: Lengths) -> Result<(), Refusal>
    ensures answer { Answered (first_cause (ten_causes lengths.first lengths.second table.now)) tt result }
    ensures known { OnOk result (Callable table.now lengths.first lengths.second) }
{
    if !lengths.are_whole() {
        return Err(Refusal::NoSuchPlace);
    }
    if table.hour != Hour::Morning {
        return Err(Refusal::WrongHour);
    }
    Ok(())
}

// The covers of all accounts are plain cents, and their length and their bound stand at two functions: the shelves add them up in
// place, and an array of a type with the bound would be a second one, made from the first.
/// Begins the calling hour, with a notice for every account that is short, and answers how many there are. The pledges of
/// each account cover so much.
pub fn call_short(ledger: &mut Ledger, covers: &[u64]) -> u32
    requires hour { ledger.old.table.hour ≡ Morning }
    requires length { length covers.now ≡ account_places }
    requires covers { (k : ℕ) → k < account_places → slice_index covers.now k ≤ 2 * top_cover }
    ensures value { result ≡ count_ones (short_among ledger.old.table (λ k. slice_index covers.now k)) }
    ensures done { ledger.new.table ≡ called ledger.old.table (short_among ledger.old.table (λ k. slice_index covers.now k)) }
    ensures begun { Begun ledger.old.table → Begun ledger.new.table }
{
    let short = short_places(ledger, covers);
    ledger.table.hour = Hour::Calling;
    ledger.table.notices = short;
    short.len()
}

/// The places of the accounts that are short.
fn short_places(ledger: &Ledger, covers: &[u64]) -> Places
    requires length { length covers.now ≡ account_places }
    requires covers { (k : ℕ) → k < account_places → slice_index covers.now k ≤ 2 * top_cover }
    ensures { result ≡ short_among ledger.now.table (λ k. slice_index covers.now k) }
{
    let mut short = Places::none();
    for (k, cents) in covers.iter().enumerate() {
        let place = k as u8;
        if is_short(ledger, place, PledgedCents { cents: *cents }) {
            short.insert(place);
        }
    }
    short
}

/// Whether the account at a place is short, its pledges covering so much.
fn is_short(ledger: &Ledger, place: u8, pledged: PledgedCents) -> bool
    requires place { place < account_places }
    ensures { result ≡ short ledger.now.table (account_at ledger.now.table place) pledged.cents }
{
    let Some(a) = ledger.account(place) else {
        return false;
    };
    let floor = floor(a.owed, a.applied, ledger.price(a.security));
    a.owed + a.applied > 0 && is_below(cover(a.balance, pledged), floor)
}

/// The account at a place with an open notice that no slip holds, or why it is not examined.
pub fn to_examine(ledger: &Ledger, lengths: Lengths, account: u8) -> Result<Account, Refusal>
    ensures found { Found (first_cause (examine_causes lengths.first lengths.second account ledger.now.table)) (account_at ledger.now.table account) result }
    ensures known { IfOk result (λ a. Examinable ledger.now.table account a × (lengths.first ≡ shelf_places) × (lengths.second ≡ shelf_places)) }
{
    if !lengths.are_whole() || account >= ACCOUNT_PLACES {
        return Err(Refusal::NoSuchPlace);
    }
    if ledger.table.hour != Hour::Calling {
        return Err(Refusal::WrongHour);
    }
    let Some(a) = ledger.account(account) else {
        return Err(Refusal::PlaceEmpty);
    };
    if !ledger.table.notices.contains(account) || ledger.table.slips.contains(account) {
        return Err(Refusal::NoNotice);
    }
    Ok(a)
}

/// Closes the notice of an account whose pledges cover so much, where its cover is at the target or above. Otherwise a slip
/// is out for it, and what lacks is answered.
pub fn examine(ledger: &mut Ledger, place: u8, a: Account, pledged: PledgedCents) -> Option<i64>
    requires known { Examinable ledger.old.table place a }
    ensures value { Lacks (target_on ledger.old.table (Some a)) (covered (Some a) pledged.cents) result }
    ensures done { ledger.new.table ≡ examined ledger.old.table place result }
    ensures begun { Begun ledger.old.table → Begun ledger.new.table }
{
    let lack = lacking(ledger, a, pledged);
    match lack {
        Some(_) => ledger.table.slips.insert(place),
        None => ledger.table.notices.remove(place),
    }
    lack
}

// That an account is sound stands here and at four more functions: it is sound among the elevens of its ledger, which a copy of
// the account does not carry.
/// What an account's cover, its pledges covering so much, lacks to the target.
fn lacking(ledger: &Ledger, a: Account, pledged: PledgedCents) -> Option<i64>
    requires account { SoundAccount (elevens ledger.now.table) a }
    ensures { Lacks (target_on ledger.now.table (Some a)) (covered (Some a) pledged.cents) result }
{
    let target = target(a.owed, a.applied, ledger.price(a.security));
    shortfall(target, cover(a.balance, pledged))
}

/// Takes back the slip that is out for an account; its notice stays open.
pub fn wait(ledger: &mut Ledger, account: u8) -> Result<(), Refusal>
    requires known { account < account_places }
    ensures acted { Acted (wait_act account) ledger.old.table ledger.new.table result }
    ensures begun { Begun ledger.old.table → Begun ledger.new.table }
{
    if !ledger.table.slips.contains(account) {
        return Err(Refusal::NoNotice);
    }
    ledger.table.slips.remove(account);
    Ok(())
}

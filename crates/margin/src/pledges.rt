// Whether a pledge may be taken onto a shelf, or handed back.
ghost use Rattle.std.specs.Prelude.{◌≡◌, IfOk, Some};
ghost use Rattle.table.specs.Act.{Answered, Found, first as first_cause};
ghost use Rattle.table.specs.Tables.{account_at, elevens};
ghost use Rattle.lending.specs.Sound.{SoundAccount};
ghost use Rattle.margin.specs.Margins.{covered};
ghost use Rattle.margin.specs.Pledges.{pledge_causes, release_causes, target_causes, BackingFound, KnownSlot, Pledgeable, Releasable};

use crate::backed::Backed;
use crate::lengths::Lengths;
use crate::measures::{cover, is_below};
use crate::pledged_cents::PledgedCents;
use lending::{Account, target};
use shelf::{Lodging, SHELF_PLACES};
use table::{ACCOUNT_PLACES, Hour, Ledger, Refusal};

/// Shelves, numbered from 0.
const SHELVES: u8 = 2;

/// The account that a pledge with an expiry is to back, or why the pledge is not taken. The shelves have so many places, and
/// the place is filled already or not.
pub fn to_pledge(
    ledger: &Ledger,
    lengths: Lengths,
    account: u8,
    place: u8,
    filled: bool,
    expiry: u16,
) -> Result<Account, Refusal>
    ensures found { Found (first_cause (pledge_causes ledger.now.table lengths.first lengths.second account place filled expiry)) (account_at ledger.now.table account) result }
    ensures known { IfOk result (λ a. Pledgeable ledger.now.table lengths.first lengths.second place a) }
{
    if !lengths.are_whole() {
        return Err(Refusal::NoSuchPlace);
    }
    if account >= ACCOUNT_PLACES || place as usize >= SHELF_PLACES {
        return Err(Refusal::NoSuchPlace);
    }
    if ledger.table.hour == Hour::Blank {
        return Err(Refusal::WrongHour);
    }
    if filled {
        return Err(Refusal::PlaceTaken);
    }
    let Some(a) = ledger.account(account) else {
        return Err(Refusal::PlaceEmpty);
    };
    if ledger.table.slips.contains(account) {
        return Err(Refusal::UnderSlip);
    }
    if expiry <= ledger.table.day {
        return Err(Refusal::Expired);
    }
    Ok(a)
}

/// What is lodged in a place with the account that it backs, or why it is not handed back, whatever cover would be left.
pub fn to_release(
    ledger: &Ledger,
    lengths: Lengths,
    shelf: u8,
    place: u8,
    lodging: Option<Lodging>,
) -> Result<Backed, Refusal>
    ensures found { BackingFound (first_cause (release_causes ledger.now.table lengths.first lengths.second shelf place lodging)) ledger.now.table lodging result }
    ensures known { IfOk result (λ b. Releasable ledger.now.table lengths.first lengths.second shelf place b) }
{
    if !lengths.are_whole() {
        return Err(Refusal::NoSuchPlace);
    }
    if shelf >= SHELVES || place as usize >= SHELF_PLACES {
        return Err(Refusal::NoSuchPlace);
    }
    if ledger.table.hour == Hour::Blank {
        return Err(Refusal::WrongHour);
    }
    let Some(lodging) = lodging else {
        return Err(Refusal::PlaceEmpty);
    };
    let Some(account) = known(ledger, lodging.account) else {
        return Err(Refusal::PlaceEmpty);
    };
    if ledger.table.slips.contains(lodging.account) {
        return Err(Refusal::UnderSlip);
    }
    Ok(Backed { lodging, account })
}

/// What stands at an account place; past the last one nothing does.
fn known(ledger: &Ledger, place: u8) -> Option<Account>
    ensures value { result ≡ account_at ledger.now.table place }
    ensures sound { KnownSlot (elevens ledger.now.table) place result }
{
    if place >= ACCOUNT_PLACES {
        return None;
    }
    ledger.account(place)
}

/// The cover that is left to the account without what is lodged, its other pledges covering so much, or why that is not enough.
pub fn cover_left(ledger: &Ledger, backed: Backed, pledged: PledgedCents) -> Result<i64, Refusal>
    requires account { SoundAccount (elevens ledger.now.table) backed.account }
    ensures { Answered (first_cause (target_causes ledger.now.table (Some backed.account) backed.lodging.expiry (covered (Some backed.account) pledged.cents))) (covered (Some backed.account) pledged.cents) result }
{
    let a = backed.account;
    let cover = cover(a.balance, pledged);
    let target = target(a.owed, a.applied, ledger.price(a.security));
    if ledger.table.day <= backed.lodging.expiry && is_below(cover, target) {
        return Err(Refusal::BelowTarget);
    }
    Ok(cover)
}

// The calls that put pledges onto a shelf, and take them off.
ghost use Rattle.std.specs.Prelude.{◌≡◌, ◌<◌, length, set, is_some, IfOk, Some};
ghost use Rattle.shelf.specs.Limits.{shelf_places};
ghost use Rattle.shelf.specs.Places.{at};
ghost use Rattle.table.specs.Act.{Acted, first as first_cause};
ghost use Rattle.table.specs.Tables.{account_at, elevens};
ghost use Rattle.lending.specs.Sound.{SoundAccount};
ghost use Rattle.margin.specs.Margins.{covered};
ghost use Rattle.margin.specs.Pledges.{Pledgeable, pledge_causes};
ghost use Rattle.book.specs.Collateral.{TakenIn, pledge_act, release_act};
ghost use Rattle.book.specs.Shelves.{backing, both, emptied, lodging_on};

use crate::book::Book;
use crate::book::questions::pledged_on;
use crate::pledged::Pledged;
use lending::Account;
use margin::{Lengths, PledgedCents, cover, cover_left, to_pledge, to_release};
use pledge::Pledge;
use shelf::{Held, Lodging, empty, fill, is_taken, lodged};
use table::{Ledger, Refusal};

impl Book {
    /// Takes a pledge for an account into a place of its shelf. Answers the account's cover.
    pub fn pledge<P: Pledge, Q: Pledge>(
        &self,
        first: &mut [Option<Held<P>>],
        second: &mut [Option<Held<Q>>],
        account: u8,
        place: u8,
        pledged: Pledged<P, Q>,
    ) -> Result<i64, Refusal>
        ensures { Acted (pledge_act P.Pledge.numbers Q.Pledge.numbers self.now.ledger.table account place pledged) (both first.old second.old) (both first.new second.new) result }
    {
        let day = self.ledger.table.day;
        let lengths = Lengths {
            first: first.len(),
            second: second.len(),
        };
        match pledged {
            Pledged::First(p) => {
                let a = take_in(&self.ledger, first, lengths, account, place, p)?;
                Ok(self.cover_with(a, pledged_on(first, second, account, day)))
            }
            Pledged::Second(q) => {
                let a = take_in(&self.ledger, second, lengths, account, place, q)?;
                Ok(self.cover_with(a, pledged_on(first, second, account, day)))
            }
        }
    }

    /// Hands back what a place of a shelf holds, 0 being the first shelf and 1 the second. Answers the cover that is left to
    /// the account.
    pub fn release<P: Pledge, Q: Pledge>(
        &self,
        first: &mut [Option<Held<P>>],
        second: &mut [Option<Held<Q>>],
        shelf: u8,
        place: u8,
    ) -> Result<i64, Refusal>
        ensures { Acted (release_act P.Pledge.numbers Q.Pledge.numbers self.now.ledger.table shelf place) (both first.old second.old) (both first.new second.new) result }
    {
        let day = self.ledger.table.day;
        let lodging = lodged_on(first, second, day, shelf, place);
        let backed = to_release(
            &self.ledger,
            Lengths {
                first: first.len(),
                second: second.len(),
            },
            shelf,
            place,
            lodging,
        )?;
        let pledged = pledged_without(first, second, day, shelf, place, backed.lodging);
        let cover = cover_left(&self.ledger, backed, pledged)?;
        empty_on(first, second, shelf, place);
        Ok(cover)
    }

    /// The cover of an account whose pledges cover so much.
    fn cover_with(&self, a: Account, pledged: PledgedCents) -> i64
        requires { SoundAccount (elevens self.now.ledger.table) a }
        ensures { result ≡ covered (Some a) pledged.cents }
    {
        cover(a.balance, pledged)
    }
}

/// Takes a pledge into a place of its shelf, or says why not. Answers the account that it backs.
fn take_in<P: Pledge>(
    ledger: &Ledger,
    shelf: &mut [Option<Held<P>>],
    lengths: Lengths,
    account: u8,
    place: u8,
    pledge: P,
) -> Result<Account, Refusal>
    requires { lengths.first ≡ shelf_places → lengths.second ≡ shelf_places → length shelf.old ≡ shelf_places }
    ensures taken { TakenIn (first_cause (pledge_causes ledger.now.table lengths.first lengths.second account place (is_some (at shelf.old place)) (P.numbers.expiry pledge))) (account_at ledger.now.table account) shelf.old (set shelf.old place (Some (record { account = account; pledge = pledge }))) shelf.new result }
    ensures known { IfOk result (λ a. Pledgeable ledger.now.table lengths.first lengths.second place a) }
{
    let a = to_pledge(
        ledger,
        lengths,
        account,
        place,
        is_taken(shelf, place),
        pledge.expiry(),
    )?;
    fill(shelf, place, account, pledge);
    Ok(a)
}

/// What is lodged in a place of a shelf by its number.
// The number comes from outside, and whether it is one of a shelf is asked only after the lengths and the place: as an enum it
// would have to be read before it may be refused. So it is a number here, in `pledged_without` and in `empty_on`.
fn lodged_on<P: Pledge, Q: Pledge>(
    first: &[Option<Held<P>>],
    second: &[Option<Held<Q>>],
    day: u16,
    shelf: u8,
    place: u8,
) -> Option<Lodging>
    ensures { result ≡ lodging_on P.Pledge.numbers Q.Pledge.numbers (both first.now second.now) day shelf place }
{
    if shelf == 0 {
        lodged(first, place, day)
    } else {
        lodged(second, place, day)
    }
}

/// What the account's pledges cover without the one that is lodged in a place.
fn pledged_without<P: Pledge, Q: Pledge>(
    first: &[Option<Held<P>>],
    second: &[Option<Held<Q>>],
    day: u16,
    shelf: u8,
    place: u8,
    lodging: Lodging,
) -> PledgedCents
    requires first { length first.now ≡ shelf_places }
    requires second { length second.now ≡ shelf_places }
    requires place { place < shelf_places }
    requires lodged { lodging_on P.Pledge.numbers Q.Pledge.numbers (both first.now second.now) day shelf place ≡ Some lodging }
    ensures { result.cents ≡ (backing P.Pledge.numbers Q.Pledge.numbers (emptied (both first.now second.now) shelf place)).covers lodging.account day }
{
    PledgedCents {
        cents: pledged_on(first, second, lodging.account, day).cents - lodging.cover,
    }
}

/// Empties a place of a shelf by its number.
fn empty_on<P: Pledge, Q: Pledge>(
    first: &mut [Option<Held<P>>],
    second: &mut [Option<Held<Q>>],
    shelf: u8,
    place: u8,
)
    requires first { place < length first.old }
    requires second { place < length second.old }
    ensures { both first.new second.new ≡ emptied (both first.old second.old) shelf place }
{
    if shelf == 0 {
        empty(first, place);
    } else {
        empty(second, place);
    }
}

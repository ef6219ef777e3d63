// The questions, which change nothing.
ghost use Rattle.std.specs.Prelude.{◌≡◌, ◌≤◌, true, length, pos, ◌-ℤ◌, ◌≤ℤ◌, IfOk, Some};
ghost use Rattle.lending.specs.Measures.{top_floor};
ghost use Rattle.lending.specs.Sound.{SoundAccount, lowest};
ghost use Rattle.table.specs.Act.{first as first_cause};
ghost use Rattle.table.specs.Limits.{last_day};
ghost use Rattle.table.specs.Tables.{account_at, elevens};
ghost use Rattle.shelf.specs.Limits.{shelf_places};
ghost use Rattle.book.specs.Shelves.{both, backing};
ghost use Rattle.book.specs.Statements.{Found, Stated, statement_causes, stated};

use crate::book::Book;
use crate::statement::{Loan, Money, Statement};
use lending::{Account, floor, target};
use margin::{Lengths, PledgedCents, cover};
use pledge::Pledge;
use shelf::{Held, cover_of};
use table::{ACCOUNT_PLACES, Refusal};

impl Book {
    /// What the book tells of an account, with its pledges on the two shelves.
    pub fn statement<P: Pledge, Q: Pledge>(
        &self,
        first: &[Option<Held<P>>],
        second: &[Option<Held<Q>>],
        account: u8,
    ) -> Result<Statement, Refusal>
        ensures { Stated P.Pledge.numbers Q.Pledge.numbers self.now.ledger.table first.now second.now account result }
    {
        let a = self.account_to_state(
            Lengths {
                first: first.len(),
                second: second.len(),
            },
            account,
        )?;
        Ok(self.state(a, pledged_on(first, second, account, self.ledger.table.day)))
    }

    /// Bit n is set while account n has an open notice.
    pub fn notice_word(&self) -> u64
        ensures { result ≡ self.now.ledger.table.notices }
    {
        u64::from(self.ledger.table.notices)
    }

    /// The account at a place, or why there is nothing to tell.
    fn account_to_state(&self, lengths: Lengths, account: u8) -> Result<Account, Refusal>
        ensures found { Found (first_cause (statement_causes self.now.ledger.table lengths.first lengths.second account)) (account_at self.now.ledger.table account) result }
        ensures sound { IfOk result (λ a. SoundAccount (elevens self.now.ledger.table) a × (lengths.first ≡ shelf_places) × (lengths.second ≡ shelf_places)) }
    {
        if !lengths.are_whole() || account >= ACCOUNT_PLACES {
            return Err(Refusal::NoSuchPlace);
        }
        self.ledger.account(account).ok_or(Refusal::PlaceEmpty)
    }

    fn state(&self, a: Account, pledged: PledgedCents) -> Statement
        requires { SoundAccount (elevens self.now.ledger.table) a }
        ensures { result ≡ stated self.now.ledger.table (Some a) pledged.cents }
    {
        let price = self.ledger.price(a.security);
        let floor = floor(a.owed, a.applied, price);
        let cover = cover(a.balance, pledged);
        Statement {
            loan: Loan {
                owed: a.owed,
                applied: a.applied,
                barred: a.barred,
            },
            money: Money {
                balance: a.balance,
                cover,
                floor,
                target: target(a.owed, a.applied, price),
                headroom: headroom(cover, floor),
            },
        }
    }
}

/// What the account's pledges on both shelves cover on a day.
// The shelves stay two slices: calls borrow them shared or to be changed, and a struct for either would be made anew at each.
pub(super) fn pledged_on<P: Pledge, Q: Pledge>(
    first: &[Option<Held<P>>],
    second: &[Option<Held<Q>>],
    account: u8,
    day: u16,
) -> PledgedCents
    requires first { length first.now ≤ shelf_places }
    requires second { length second.now ≤ shelf_places }
    ensures { result.cents ≡ (backing P.Pledge.numbers Q.Pledge.numbers (both first.now second.now)).covers account day }
{
    PledgedCents {
        cents: cover_of(first, account, day) + cover_of(second, account, day),
    }
}

fn headroom(cover: i64, floor: u64) -> i64
    requires low { lowest last_day true ≤ℤ cover }
    requires floor { floor ≤ top_floor }
    ensures { result ≡ cover -ℤ pos floor }
{
    cover - floor as i64
}

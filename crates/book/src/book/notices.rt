// The calls that give and answer notices.
ghost use Rattle.std.specs.Prelude.{◌≡◌, ℕ, ◌*◌, ◌<◌, ◌≤◌, length, slice_index};
ghost use Rattle.shelf.specs.Limits.{top_cover, shelf_places};
ghost use Rattle.table.specs.Act.{Acted};
ghost use Rattle.lending.specs.Sound.{account_places};
ghost use Rattle.margin.specs.Notices.{ten_act, wait_act};
ghost use Rattle.book.specs.Examinations.{Examination};
ghost use Rattle.book.specs.Shelves.{both, backing};

use crate::book::Book;
use crate::book::questions::pledged_on;
use crate::examined::Examined;
use crate::slip::Slip;
use lending::ACCOUNT_PLACES;
use margin::{Lengths, call_short, examine, to_examine, to_ten, wait};
use pledge::Pledge;
use shelf::{Held, add_covers};
use table::Refusal;

impl Book {
    /// Begins the calling hour, and gives a notice to every account with owed or applied units and cover below its floor.
    /// Answers how many.
    pub fn ten<P: Pledge, Q: Pledge>(
        &mut self,
        first: &[Option<Held<P>>],
        second: &[Option<Held<Q>>],
    ) -> Result<u32, Refusal>
        ensures { Acted (ten_act (backing P.Pledge.numbers Q.Pledge.numbers (both first.now second.now))) self.old.ledger.table self.new.ledger.table result }
    {
        to_ten(
            &self.ledger.table,
            Lengths {
                first: first.len(),
                second: second.len(),
            },
        )?;
        let covers = all_covers(first, second, self.ledger.table.day);
        Ok(call_short(&mut self.ledger, &covers))
    }

    /// Looks at an account with an open notice that no slip holds.
    pub fn examine<P: Pledge, Q: Pledge>(
        &mut self,
        first: &[Option<Held<P>>],
        second: &[Option<Held<Q>>],
        account: u8,
    ) -> Result<Examined, Refusal>
        ensures { Examination (backing P.Pledge.numbers Q.Pledge.numbers (both first.now second.now)) account self.old.ledger.table self.new.ledger.table result }
    {
        let a = to_examine(
            &self.ledger,
            Lengths {
                first: first.len(),
                second: second.len(),
            },
            account,
        )?;
        let pledged = pledged_on(first, second, account, self.ledger.table.day);
        match examine(&mut self.ledger, account, a, pledged) {
            Some(lack) => Ok(Examined::Short(lack, Slip { account })),
            None => Ok(Examined::Met),
        }
    }

    /// Spends a slip: the notice stays open, held by none. The slip is spent even where none is out here for its account.
    pub fn wait(&mut self, slip: Slip) -> Result<(), Refusal>
        ensures { Acted (wait_act slip.account) self.old.ledger.table self.new.ledger.table result }
    {
        let Slip { account } = slip;
        wait(&mut self.ledger, account)
    }
}

/// What the pledges of each account on both shelves cover on a day, by account place.
fn all_covers<P: Pledge, Q: Pledge>(
    first: &[Option<Held<P>>],
    second: &[Option<Held<Q>>],
    day: u16,
) -> [u64; ACCOUNT_PLACES]
    requires first { length first.now ≤ shelf_places }
    requires second { length second.now ≤ shelf_places }
    ensures value { (k : ℕ) → k < account_places → slice_index result k ≡ (backing P.Pledge.numbers Q.Pledge.numbers (both first.now second.now)).covers k day }
    ensures most { (k : ℕ) → k < account_places → slice_index result k ≤ 2 * top_cover }
{
    let mut covers = [0; ACCOUNT_PLACES];
    add_covers(first, day, &mut covers);
    add_covers(second, day, &mut covers);
    covers
}

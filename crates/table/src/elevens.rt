// Eleven o'clock, and paying what was earned.
ghost use Rattle.std.specs.Prelude.{◌≡◌};
ghost use Rattle.table.specs.Sound.{Begun};
ghost use Rattle.table.specs.Act.{Acted};
ghost use Rattle.table.specs.Elevens.{eleven_act, pay_out_act};

use super::hour::Hour;
use super::ledger::Ledger;
use super::limits::OFFER_PLACES;
use super::refusal::Refusal;
use lending::{Offer, eleven};

impl Ledger {
    /// Lends, charges and begins the afternoon, and answers all fees and all voucher units.
    pub fn eleven(&mut self) -> Result<(u64, u64), Refusal>
        requires { Begun self.old.table }
        ensures acted { Acted eleven_act self.old.table self.new.table result }
        ensures begun { Begun self.new.table }
    {
        if self.table.hour != Hour::Calling {
            return Err(Refusal::WrongHour);
        }
        if !self.table.notices.is_empty() {
            return Err(Refusal::NoticeOpen);
        }
        let answer = eleven(&mut self.table.accounts, &mut self.table.offers);
        self.table.hour = Hour::Afternoon;
        Ok(answer)
    }

    /// Pays what an offer earned, and answers it: the lender's part and the broker's.
    pub fn pay_out(&mut self, place: u16) -> Result<(u64, u64), Refusal>
        ensures acted { Acted (pay_out_act place) self.old.table self.new.table result }
        ensures begun { Begun self.old.table → Begun self.new.table }
    {
        if place >= OFFER_PLACES {
            return Err(Refusal::NoSuchPlace);
        }
        if self.table.hour != Hour::Afternoon {
            return Err(Refusal::WrongHour);
        }
        let Some(o) = self.offer_at(place) else {
            return Err(Refusal::PlaceEmpty);
        };
        if let Some(stored) = &mut self.table.offers[place as usize] {
            stored.lender = 0;
            stored.broker = 0;
        }
        Ok((o.lender, o.broker))
    }
}

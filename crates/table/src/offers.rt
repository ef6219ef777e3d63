// Calls on one offer.
ghost use Rattle.std.specs.Prelude.{◌≡◌};
ghost use Rattle.table.specs.Sound.{Begun};
ghost use Rattle.table.specs.Act.{Acted};
ghost use Rattle.table.specs.Offers.{offer_act, withdraw_act};

use super::hour::Hour;
use super::ledger::Ledger;
use super::limits::{OFFER_PLACES, RATE_PER_CENT, SECURITIES, TOP_COMMISSION, TOP_RATE, TOP_UNITS};
use super::refusal::Refusal;
use lending::Offer;

impl Ledger {
    /// Records an offer of units at a rate and commission, with nothing earned yet.
    pub fn offer(
        &mut self,
        place: u16,
        security: u8,
        units: u16,
        rate: u32,
        commission: u8,
    ) -> Result<(), Refusal>
        ensures acted { Acted (offer_act place security units rate commission) self.old.table self.new.table result }
        ensures begun { Begun self.old.table → Begun self.new.table }
    {
        if place >= OFFER_PLACES || security >= SECURITIES {
            return Err(Refusal::NoSuchPlace);
        }
        if !(1..=TOP_UNITS).contains(&units) || rate > TOP_RATE || commission > TOP_COMMISSION {
            return Err(Refusal::OutOfRange);
        }
        if self.table.hour != Hour::Morning {
            return Err(Refusal::WrongHour);
        }
        if self.offer_at(place).is_some() {
            return Err(Refusal::PlaceTaken);
        }
        if 100 * rate > RATE_PER_CENT * self.price(security) {
            return Err(Refusal::RateTooHigh);
        }
        self.table.offers[place as usize] = Some(Offer {
            security,
            units,
            rate,
            commission,
            lender: 0,
            broker: 0,
        });
        Ok(())
    }

    /// Ends an offer, and answers its unpaid earnings: the lender's part and the broker's.
    pub fn withdraw(&mut self, place: u16) -> Result<(u64, u64), Refusal>
        ensures acted { Acted (withdraw_act place) self.old.table self.new.table result }
        ensures begun { Begun self.old.table → Begun self.new.table }
    {
        if place >= OFFER_PLACES {
            return Err(Refusal::NoSuchPlace);
        }
        if self.table.hour != Hour::Morning {
            return Err(Refusal::WrongHour);
        }
        let Some(o) = self.offer_at(place) else {
            return Err(Refusal::PlaceEmpty);
        };
        self.table.offers[place as usize] = None;
        Ok((o.lender, o.broker))
    }
}

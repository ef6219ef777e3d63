// A day begins.
ghost use Rattle.std.specs.Prelude.{◌≡◌, not};
ghost use Rattle.lending.specs.Measures.{top_price};
ghost use Rattle.table.specs.Sound.{Begun};
ghost use Rattle.table.specs.Act.{Acted, outside};
ghost use Rattle.table.specs.Days.{all_priced, open_act};

use super::hour::Hour;
use super::ledger::Ledger;
use super::limits::{LAST_DAY, TOP_PRICE};
use super::refusal::Refusal;

impl Ledger {
    /// Begins the next day with its prices, and answers the day.
    pub fn open(&mut self, prices: [u32; 8]) -> Result<u16, Refusal>
        ensures acted { Acted (open_act prices) self.old.table self.new.table result }
        ensures begun { Begun self.old.table → Begun self.new.table }
    {
        if !all_priced(&prices) {
            return Err(Refusal::OutOfRange);
        }
        if matches!(self.table.hour, Hour::Morning | Hour::Calling) {
            return Err(Refusal::WrongHour);
        }
        if self.table.day >= LAST_DAY {
            return Err(Refusal::LastDay);
        }
        self.table.day += 1;
        self.table.hour = Hour::Morning;
        self.table.prices = prices;
        Ok(self.table.day)
    }
}

fn all_priced(prices: &[u32]) -> bool
    ensures { result ≡ all_priced prices.now }
{
    prices.iter().all(|price| is_price(*price))
}

fn is_price(cents: u32) -> bool
    ensures { result ≡ not (outside 1 top_price cents) }
{
    (1..=TOP_PRICE).contains(&cents)
}

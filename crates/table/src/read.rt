// A new ledger, and readers.
ghost use Rattle.std.specs.Prelude.{◌≡◌, ◌<◌, ◌≤◌};
ghost use Rattle.lending.specs.Measures.{top_price};
ghost use Rattle.lending.specs.Sound.{securities, account_places, offer_places};
ghost use Rattle.table.specs.Tables.{account_at, offer_at, price_at, elevens, blank_table};
ghost use Rattle.table.specs.Sound.{Begun, SoundSlot, SoundOfferSlot};

use super::hour::Hour;
use super::ledger::Ledger;
use super::table::Table;
use bits::Places;
use lending::{ACCOUNT_PLACES, Account, OFFER_PLACES, Offer, SECURITIES};

// Places are plain numbers with their bounds beside them, as a call brings them: it refuses a place out of bounds itself, at its
// turn among the refusals, so a type with the bound would be made after that and asked for its number at once.
impl Ledger {
    /// The blank hour of day 0, with every place empty.
    pub fn blank() -> Ledger
        ensures value { result.table ≡ blank_table }
        ensures begun { Begun result.table }
    {
        Ledger {
            table: Table {
                day: 0,
                hour: Hour::Blank,
                prices: [0; SECURITIES],
                accounts: [None; ACCOUNT_PLACES],
                offers: [None; OFFER_PLACES],
                notices: Places::none(),
                slips: Places::none(),
            },
        }
    }

    /// What stands at an account place.
    pub fn account(&self, place: u8) -> Option<Account>
        requires { place < account_places }
        ensures value { result ≡ account_at self.now.table place }
        ensures sound { SoundSlot (elevens self.now.table) result }
    {
        self.table.accounts[place as usize]
    }

    /// What stands at an offer place.
    pub fn offer_at(&self, place: u16) -> Option<Offer>
        requires { place < offer_places }
        ensures value { result ≡ offer_at self.now.table place }
        ensures sound { SoundOfferSlot (elevens self.now.table) result }
    {
        self.table.offers[place as usize]
    }

    /// The price of a security.
    pub fn price(&self, security: u8) -> u32
        requires { security < securities }
        ensures value { result ≡ price_at self.now.table security }
        ensures most { result ≤ top_price }
    {
        self.table.prices[security as usize]
    }
}

use super::hour::Hour;
use bits::Places;
use lending::{ACCOUNT_PLACES, Account, OFFER_PLACES, Offer, SECURITIES};

/// All that a book knows, with nothing promised about it.
#[derive(Drop)]
pub struct Table {
    pub day: u16,
    pub hour: Hour,
    /// By security, in cents for each share.
    pub prices: [u32; SECURITIES],
    pub accounts: [Option<Account>; ACCOUNT_PLACES],
    pub offers: [Option<Offer>; OFFER_PLACES],
    /// The accounts that have an open notice.
    pub notices: Places,
    /// The accounts that a slip is out for.
    pub slips: Places,
}

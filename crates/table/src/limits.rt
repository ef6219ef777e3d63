// How many places there are, and how large a number may be.

/// Account places, numbered from 0.
pub const ACCOUNT_PLACES: u8 = lending::ACCOUNT_PLACES as u8;
/// Offer places, numbered from 0.
pub const OFFER_PLACES: u16 = lending::OFFER_PLACES as u16;
/// Securities, numbered from 0.
pub const SECURITIES: u8 = lending::SECURITIES as u8;
/// The last day.
pub(crate) const LAST_DAY: u16 = 60_000;
/// The highest price, in cents for each share.
pub(crate) const TOP_PRICE: u32 = 1_000_000;
/// Firms are numbered from 1 to this.
pub(crate) const TOP_FIRM: u16 = 9_999;
/// The most units of an offer, of one application or return, and owed and applied together.
pub(crate) const TOP_UNITS: u16 = 1_000;
/// The highest rate, in cents for each share and day.
pub(crate) const TOP_RATE: u32 = 70_000;
/// A rate is at most so many per cent of the price.
pub(crate) const RATE_PER_CENT: u32 = 7;
/// The highest commission, in per cent.
pub(crate) const TOP_COMMISSION: u8 = 10;
/// The most cents of one deposit.
pub(crate) const TOP_DEPOSIT: u64 = 10_000_000_000_000;
/// The highest balance.
pub(crate) const TOP_BALANCE: i64 = 1_000_000_000_000_000;

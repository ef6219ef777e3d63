// How many places and securities there are.

/// The places of the table of accounts.
pub const ACCOUNT_PLACES: usize = 64;
/// The places of the table of offers.
pub const OFFER_PLACES: usize = 256;
/// Securities, numbered from 0.
pub const SECURITIES: usize = 8;

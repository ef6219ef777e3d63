//! Accounts and offers, the measures of a loan, and the lending at eleven o'clock.
#![tactic(auto)]

mod account;
mod charge;
mod clock;
mod lend;
mod measures;
mod offer;
mod order;
mod sizes;

pub use account::Account;
pub use clock::eleven;
pub use measures::{SHARES, floor, target};
pub use offer::Offer;
pub use sizes::{ACCOUNT_PLACES, OFFER_PLACES, SECURITIES};

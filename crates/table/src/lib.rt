//! The book's plain state, what each call does to it, and what always holds of it.
#![tactic(auto)]

mod accounts;
mod days;
mod elevens;
mod hour;
mod ledger;
mod limits;
mod offers;
mod read;
mod refusal;
mod table;
mod words;

pub use hour::Hour;
pub use ledger::Ledger;
pub use limits::{ACCOUNT_PLACES, OFFER_PLACES, SECURITIES};
pub use refusal::Refusal;
pub use table::Table;

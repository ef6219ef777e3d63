//! Margins: the measures of an account in a table, and the plain halves of the calls that lean on them. What lies on the
//! shelves comes in as numbers.
#![tactic(auto)]

mod backed;
mod buy_ins;
mod execution;
mod lengths;
mod measures;
mod notices;
mod pledged_cents;
mod pledges;
mod purchase;
mod refunds;

pub use backed::Backed;
pub use buy_ins::{settle, to_buy_in};
pub use execution::Execution;
pub use lengths::Lengths;
pub use measures::cover;
pub use notices::{call_short, examine, to_examine, to_ten, wait};
pub use pledged_cents::PledgedCents;
pub use pledges::{cover_left, to_pledge, to_release};
pub use purchase::Purchase;
pub use refunds::{to_refund, vacate};

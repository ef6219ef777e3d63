//! The book: its calls and questions, for every input, with nothing asked of the caller.
#![tactic(auto)]

mod book;
mod examined;
mod handed_back;
mod pledged;
mod slip;
mod statement;

pub use book::Book;
pub use examined::Examined;
pub use handed_back::HandedBack;
pub use margin::Execution;
pub use pledged::Pledged;
pub use slip::Slip;
pub use statement::{Loan, Money, Statement};
pub use table::Refusal;

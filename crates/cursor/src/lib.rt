//! A cursor over lent bytes that takes one field after another.
#![tactic(auto)]

mod cursor;
mod number;
mod take;

pub use cursor::{Cursor, Short};
pub use number::Number;

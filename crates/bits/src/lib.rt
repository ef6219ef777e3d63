//! Sets of places, kept as the bits of a 64-bit word.
//!
//! A place is counted from 0, the bit that weighs 1, to 63.
#![tactic(auto)]

mod places;

pub use places::Places;

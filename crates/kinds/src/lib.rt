//! The two kinds of pledge: guarantees and bonds.
#![tactic(auto)]

mod bond;
mod bond_pledge;
mod guarantee;
mod guarantee_pledge;

pub use bond::Bond;
pub use guarantee::Guarantee;

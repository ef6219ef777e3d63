//! Drawing on an account's pledges on one shelf: nearer expiry first and then lower place, each asked only for what still
//! lacks.
#![tactic(auto)]

mod draws;
mod next;
mod turn;

pub use draws::draw_on;

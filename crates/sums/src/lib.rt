//! Sums over the places of a table: one definition, and what is known of it. There is nothing to run here.
#![tactic(auto)]

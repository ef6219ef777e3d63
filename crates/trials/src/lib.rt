//! Trials. Everything here is for tests.
#![tactic(auto)]

#[cfg(test)]
mod books;
#[cfg(test)]
mod dice;
#[cfg(test)]
mod files;

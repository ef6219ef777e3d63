use lending::Account;
use shelf::Lodging;

/// What is lodged in a place, and the account that it backs.
#[derive(Clone, Copy, Debug, PartialEq, Eq)]
pub struct Backed {
    pub lodging: Lodging,
    pub account: Account,
}

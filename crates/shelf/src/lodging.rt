/// What a book reads of a pledge in a place: the account that it backs, its expiry, and what it covers on a day.
#[derive(Clone, Copy, Debug, PartialEq, Eq)]
pub struct Lodging {
    /// The place of the account.
    pub account: u8,
    /// The last day on which the pledge pays.
    pub expiry: u16,
    /// In cents.
    pub cover: u64,
}

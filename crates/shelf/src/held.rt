/// A pledge, and the account that it backs.
#[derive(Drop)]
pub struct Held<P> {
    /// The place of the account.
    pub account: u8,
    /// The pledge.
    pub pledge: P,
}

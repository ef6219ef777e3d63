/// One firm's loan in one security.
#[derive(Clone, Copy, Debug, PartialEq, Eq)]
pub struct Account {
    pub firm: u16,
    pub security: u8,
    /// Units lent to the firm and not returned.
    pub owed: u16,
    /// Units that it asks for.
    pub applied: u16,
    /// Whether it was bought in: it may not apply any more.
    pub barred: bool,
    /// Cash held in cents, or below zero what the firm owes.
    pub balance: i64,
}

/// What an account owes and asks for.
#[derive(Clone, Copy, Debug, PartialEq, Eq)]
pub struct Loan {
    pub owed: u16,
    pub applied: u16,
    pub barred: bool,
}

/// What it has, and what it has to have, in cents.
#[derive(Clone, Copy, Debug, PartialEq, Eq)]
pub struct Money {
    pub balance: i64,
    /// The balance and the covers of the account's pledges.
    pub cover: i64,
    pub floor: u64,
    pub target: u64,
    /// Cover less floor.
    pub headroom: i64,
}

/// What the book tells of an account.
#[derive(Clone, Copy, Debug, PartialEq, Eq)]
pub struct Statement {
    pub loan: Loan,
    pub money: Money,
}

// A call, its answer and a statement in a form that can be written down and compared whole.

/// A call of the book with its values, in the order in which the book takes them.
#[derive(Clone, Copy, Debug)]
pub enum Call {
    /// The prices.
    Open([u32; 8]),
    /// Account, firm and security.
    Enrol(u8, u16, u8),
    /// Place, security, units, rate and commission.
    Offer(u16, u8, u16, u32, u8),
    /// Place.
    Withdraw(u16),
    /// Account and units.
    Apply(u8, u16),
    /// Account and units.
    Return(u8, u16),
    /// Account and cents.
    Deposit(u8, u64),
    /// A pledge onto the first shelf: account, place, thousands of dollars and expiry.
    Guarantee(u8, u8, u32, u16),
    /// A pledge onto the second shelf: account, place, blocks and expiry.
    Bonds(u8, u8, u16, u16),
    /// Shelf and place.
    Release(u8, u8),
    Ten,
    /// Account.
    Examine(u8),
    /// The account of the slip that is spent: the last one that this book gave for it, or else one that another book gave.
    Wait(u8),
    /// The same, with a slip that another book gave.
    WaitAstray(u8),
}

/// What a call is answered.
#[derive(Clone, Copy, Debug, PartialEq)]
pub enum Answer {
    Done,
    Number(i128),
    /// The unpaid part of the lender and that of the broker.
    Unpaid(i128, i128),
    /// An examination finds cover at the target or above.
    Met,
    /// An examination finds cover so many cents below the target, and gives a slip for an account.
    Short(i128, u8),
    /// By the number of the cause.
    // The number and no `Refusal`: what is expected is written from the rules, which know numbers alone.
    Refused(u8),
    /// There is no such pledge or slip, so the book was not asked.
    NotMade,
}

/// A statement, its amounts as wide as can be.
#[derive(Clone, Copy, Debug, PartialEq)]
pub struct Stated {
    pub owed: i128,
    pub applied: i128,
    pub barred: bool,
    pub balance: i128,
    pub cover: i128,
    pub floor: i128,
    pub target: i128,
    pub headroom: i128,
}

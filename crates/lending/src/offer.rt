/// A lender's offer of units of a security, which stands until it is withdrawn.
#[derive(Clone, Copy, Debug, PartialEq, Eq)]
pub struct Offer {
    pub security: u8,
    pub units: u16,
    /// In cents for each share and day.
    pub rate: u32,
    /// The broker's part of the earnings, in per cent.
    pub commission: u8,
    /// Earned for the lender and not paid, in cents.
    pub lender: u64,
    /// Earned for the broker and not paid, in cents.
    pub broker: u64,
}

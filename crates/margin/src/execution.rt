/// At what a buy in was carried out: plain numbers, whatever they are.
#[derive(Clone, Copy, Debug, PartialEq, Eq)]
pub struct Execution {
    /// In cents for each share.
    pub share_price: u32,
    /// All charges, in cents.
    pub charges: u64,
    /// What one block of bonds sold for, in cents.
    pub block_price: u32,
}

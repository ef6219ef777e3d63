use lending::Account;
use pledge::BlockPrice;

/// What is bought for an account.
#[derive(Clone, Copy, Debug, PartialEq, Eq)]
pub struct Purchase {
    pub account: Account,
    pub block_price: BlockPrice,
    /// In cents.
    pub cost: u64,
    /// By how many cents the cost passes the balance.
    pub lack: u64,
}

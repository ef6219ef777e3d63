ghost use Rattle.std.specs.Prelude.{◌≡◌, ◌≤◌, Some, None};
ghost use Rattle.pledge.specs.Limits.{Priced, top_block_price};

/// The highest block price, in cents.
pub const TOP_BLOCK_PRICE: u32 = 20_000_000;

/// A block price: what one block of bonds sells for, 1 to `TOP_BLOCK_PRICE` cents.
#[derive(Clone, Copy, Debug, PartialEq, Eq, PartialOrd, Ord)]
pub struct BlockPrice {
    /// The price in cents.
    pub cents: u32,
    ghost low: { 1 ≤ cents },
    ghost high: { cents ≤ top_block_price },
}

impl BlockPrice {
    /// The block price of so many cents, or `None` where that is no block price.
    pub fn new(cents: u32) -> Option<BlockPrice>
        ensures { elim result [ Some p ↦ Priced cents × (p.cents ≡ cents) | None ↦ (Priced cents → ⊥) ] }
    {
        if (1..=TOP_BLOCK_PRICE).contains(&cents) {
            Some(BlockPrice { cents })
        } else {
            None
        }
    }
}

//! What a pledge is to those who hold it: what it counts for, and drawing on it.
#![tactic(auto)]

ghost use Rattle.std.specs.Prelude.{◌≡◌};
ghost use Rattle.pledge.specs.Numbers.{Numbers, Rules};

mod price;

pub use price::{BlockPrice, TOP_BLOCK_PRICE};

/// A pledge: security that counts for so much until its expiry day, and that can be drawn on up to and on that day.
///
/// A kind of pledge gives its `numbers`, keeps the rules, and may be let go; nothing else is asked of it.
pub trait Pledge: Drop {
    ghost numbers: { Numbers Self };

    /// The last day on which it pays.
    fn expiry(&self) -> u16
        ensures { result ≡ numbers.expiry self.now };

    /// The cents that it counts for on a day.
    fn cover(&self, day: u16) -> u64
        ensures { result ≡ numbers.cover self.now day };

    /// The most cents that a draw can get from it on a day at a block price.
    fn payable(&self, day: u16, price: BlockPrice) -> u64
        ensures { result ≡ numbers.payable self.now day price.cents };

    /// A draw may pass what was asked for, by less than this.
    fn step(&self, price: BlockPrice) -> u64
        ensures { result ≡ numbers.step self.now price.cents };

    /// Draws on it for `ask` cents on a day at a block price, and answers the cents that it yields.
    fn draw(&mut self, ask: u64, day: u16, price: BlockPrice) -> u64
        ensures yields { result ≡ numbers.yields self.old ask day price.cents }
        ensures left { self.new ≡ numbers.left self.old ask day price.cents };

    ghost rules: { Rules numbers };
}

//! Bonds: a draw sells whole blocks.
ghost use Rattle.std.specs.Prelude.{◌≡◌, ◌*◌, ◌≤◌};
ghost use Rattle.kinds.specs.Bonds.{Fewest, Lodged, blocks_on, bonded, less, reach, sold, sold_on};
ghost use Rattle.kinds.specs.BondRules;

use crate::bond::Bond;
use pledge::{BlockPrice, Pledge};

/// The most blocks of one bond pledge.
const TOP_BLOCKS: u16 = 10_000;

/// The face of a block, in cents: 100,000 dollars.
const FACE: u64 = 10_000_000;

/// A block is covered at nine tenths of its face.
const BLOCK_COVER: u64 = FACE * 9 / 10;

impl Bond {
    /// Bonds of so many blocks, 1 to 10,000; `None` for any other number.
    pub fn new(blocks: u16, expiry: u16) -> Option<Bond>
        ensures { Lodged result blocks expiry }
    {
        if (1..=TOP_BLOCKS).contains(&blocks) {
            Some(Bond { expiry, blocks })
        } else {
            None
        }
    }

    /// The blocks that a draw sells: the fewest that reach the ask, or all that can be sold on the day.
    fn blocks_sold(&self, ask: u64, day: u16, price: BlockPrice) -> u16
        ensures number { result ≡ sold_on self.now ask day price.cents }
        ensures fewest { Fewest (blocks_on self.now day) result ask price.cents (result * price.cents) }
    {
        blocks_for(ask, price).min(self.blocks_on(day) as u64) as u16
    }

    /// The blocks that can be sold on the day.
    fn blocks_on(&self, day: u16) -> u16
        ensures { result ≡ blocks_on self.now day }
    {
        if day <= self.expiry { self.blocks } else { 0 }
    }

    /// Parts with so many of the blocks.
    fn sell(&mut self, blocks: u16)
        requires { blocks ≤ self.old.blocks }
        ensures left { self.new ≡ less self.old blocks }
        ensures number { sold self.old self.new ≡ blocks }
    {
        self.blocks -= blocks;
    }
}

impl Pledge for Bond {
    ghost numbers = { bonded };

    ghost rules = { BondRules.rules };

    fn expiry(&self) -> u16 {
        self.expiry
    }

    fn cover(&self, day: u16) -> u64 {
        let blocks = if day < self.expiry { self.blocks } else { 0 };
        blocks as u64 * BLOCK_COVER
    }

    fn payable(&self, day: u16, price: BlockPrice) -> u64 {
        self.blocks_on(day) as u64 * price.cents as u64
    }

    fn step(&self, price: BlockPrice) -> u64 {
        price.cents as u64
    }

    fn draw(&mut self, ask: u64, day: u16, price: BlockPrice) -> u64
        ensures yields { result ≡ bonded.yields self.old ask day price.cents }
        ensures left { self.new ≡ bonded.left self.old ask day price.cents }
        ensures fewest { Fewest (blocks_on self.old day) (sold self.old self.new) ask price.cents result }
    {
        let blocks = self.blocks_sold(ask, day, price);
        self.sell(blocks);
        blocks as u64 * price.cents as u64
    }
}

/// The fewest blocks whose price reaches the ask.
fn blocks_for(ask: u64, price: BlockPrice) -> u64
    ensures { result ≡ reach ask price.cents }
{
    ask.div_ceil(price.cents as u64)
}

//! Guarantees: a draw takes from the amount not yet drawn.
ghost use Rattle.std.specs.Prelude.{◌≡◌, ◌≤◌};
ghost use Rattle.kinds.specs.Guarantees.{Issued, guaranteed, less};
ghost use Rattle.std.proofs.Common.{rules};

use crate::guarantee::Guarantee;
use pledge::{BlockPrice, Pledge};

/// A thousand dollars, in cents.
const THOUSAND: u64 = 100_000;

/// The most thousands of dollars that one guarantee is for.
const TOP_THOUSANDS: u32 = 1_000_000;

impl Guarantee {
    /// A guarantee of so many thousands of dollars, 1 to 1,000,000; `None` for any other number.
    pub fn new(thousands: u32, expiry: u16) -> Option<Guarantee>
        ensures { Issued result thousands expiry }
    {
        if (1..=TOP_THOUSANDS).contains(&thousands) {
            Some(Guarantee {
                expiry,
                left: thousands as u64 * THOUSAND,
            })
        } else {
            None
        }
    }

    /// Parts with so many of the cents left.
    fn pay(&mut self, cents: u64)
        requires { cents ≤ self.old.left }
        ensures { self.new ≡ less self.old cents }
    {
        self.left -= cents;
    }
}

impl Pledge for Guarantee {
    ghost numbers = { guaranteed };

    ghost rules = { Prim.search rules };

    fn expiry(&self) -> u16 {
        self.expiry
    }

    fn cover(&self, day: u16) -> u64 {
        if day < self.expiry { self.left } else { 0 }
    }

    fn payable(&self, day: u16, _price: BlockPrice) -> u64 {
        if day <= self.expiry { self.left } else { 0 }
    }

    fn step(&self, _price: BlockPrice) -> u64 {
        1
    }

    fn draw(&mut self, ask: u64, day: u16, price: BlockPrice) -> u64 {
        let drawn = ask.min(self.payable(day, price));
        self.pay(drawn);
        drawn
    }
}

// Figures of the two kinds of pledge.
ghost use Rattle.std.specs.Prelude.{◌≡◌, ◌*◌, min, Some};
ghost use Rattle.kinds.specs.Bonds.{reach};
ghost use Rattle.figures.specs.Pledges.{PledgeFiguresHold, worked};

use kinds::{Bond, Guarantee};
use pledge::{BlockPrice, Pledge};

/// What a guarantee of 50 thousands with expiry 9 comes to, and two blocks of bonds at a block price of 9,500,000; in
/// cents.
#[derive(Clone, Copy, Debug, PartialEq, Eq)]
pub struct PledgeFigures {
    /// The guarantee's cover on the last day before its expiry.
    pub cover_on_day_8: u64,
    /// Its cover on the expiry day.
    pub cover_on_day_9: u64,
    /// What is payable on the expiry day.
    pub payable_on_day_9: u64,
    /// What is payable on the first day after it.
    pub payable_on_day_10: u64,
    /// What the two blocks yield for an ask of the price of one.
    pub one_block_asked: u64,
    /// What they yield for an ask of one cent more.
    pub one_cent_more_asked: u64,
}

/// Makes the pledges and asks them. The contract says what the figures are, and that the kinds' definitions give them.
pub fn pledge_figures() -> Option<PledgeFigures>
    ensures figures { result ≡ Some worked }
    ensures rules { PledgeFiguresHold }
{
    let price = BlockPrice::new(9_500_000)?;
    let guarantee = Guarantee::new(50, 9)?;
    Some(PledgeFigures {
        cover_on_day_8: guarantee.cover(8),
        cover_on_day_9: guarantee.cover(9),
        payable_on_day_9: guarantee.payable(9, price),
        payable_on_day_10: guarantee.payable(10, price),
        one_block_asked: two_blocks_yield(9_500_000, price)?,
        one_cent_more_asked: two_blocks_yield(9_500_001, price)?,
    })
}

/// What two blocks yield for an ask on their expiry day.
fn two_blocks_yield(ask: u64, price: BlockPrice) -> Option<u64>
    ensures { result ≡ Some (min (reach ask price.cents) 2 * price.cents) }
{
    let mut bonds = Bond::new(2, 9)?;
    Some(bonds.draw(ask, 9, price))
}

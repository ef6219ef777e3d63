// The order in which offers give: the lower rate first, and then the lower place.
ghost use Rattle.std.specs.Prelude.{ℕ, ◌<◌};
ghost use Rattle.lending.specs.Sound.{offer_places};
ghost use Rattle.lending.specs.Steps.{place_at, Ordered};

use crate::offer::Offer;
use crate::sizes::OFFER_PLACES;

/// Where an offer stands in the order, which compares the fields from the first on.
#[derive(Clone, Copy, PartialEq, Eq, PartialOrd, Ord)]
pub(crate) struct Rank {
    rate: u32,
    pub(crate) place: usize,
}

/// The ranks of all places, in rising order. An empty place has the rate 0.
pub(crate) fn order(offers: &[Option<Offer>; OFFER_PLACES]) -> [Rank; OFFER_PLACES]
    ensures ordered { Ordered offers.now result }
    ensures inside { (j : ℕ) → j < offer_places → place_at result j < offer_places }
{
    let mut ranks = std::array::from_fn(|place| Rank {
        rate: offers[place].map_or(0, |offer| offer.rate),
        place,
    });
    ranks.sort_unstable();
    ranks
}

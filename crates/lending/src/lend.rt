// What the offers give, and what they earn by it.
ghost use Rattle.std.specs.Prelude.{◌≡◌, ℕ, ◌+◌, ◌-◌, ◌*◌, ◌≤◌, length, IfSome, slice_index};
ghost use Rattle.std.specs.Option.{option_map};
ghost use Rattle.sums.specs.Below.{below};
ghost use Rattle.lending.specs.Measures.{top_units};
ghost use Rattle.lending.specs.Sound.{offer_places, top_fee, top_elevens, SoundOffer, SoundOffers};
ghost use Rattle.lending.specs.Lending.{at, offered_in, lent};
ghost use Rattle.lending.specs.Eleven.{gives_at};
ghost use Rattle.lending.specs.Steps.{takes, earns_in};

use crate::measures::SHARES;
use crate::offer::Offer;
use crate::order::order;
use crate::sizes::{OFFER_PLACES, SECURITIES};

/// The units that each place gives to what is `left` of each security's need.
pub(crate) fn given(
    offers: &[Option<Offer>; OFFER_PLACES],
    left: &mut [u64; SECURITIES],
) -> [u64; OFFER_PLACES]
    requires { SoundOffers top_elevens offers.now }
    ensures units { (k : ℕ) → slice_index result k ≡ gives_at offers.now (λ s. slice_index left.old s) k (at offers.now k) }
    ensures left { (s : ℕ) → slice_index left.new s ≡ slice_index left.old s - below (length offers.now) (λ k. offered_in s (at offers.now k)) }
{
    // Beside the offers, by place: what an offer gives today is no part of what stands in the table.
    let mut given = [0; OFFER_PLACES];
    for rank in order(offers) {
        given[rank.place] = give(offers[rank.place], left);
    }
    given
}

/// Each offer earns for the units that it gives: what the offers of each security earn together.
pub(crate) fn lend(
    offers: &mut [Option<Offer>; OFFER_PLACES],
    given: &[u64; OFFER_PLACES],
) -> [u64; SECURITIES]
    requires units { (k : ℕ) → slice_index given.now k ≤ top_units }
    requires sound { SoundOffers top_elevens offers.old }
    ensures earned { (s : ℕ) → slice_index result s ≡ below (length offers.old) (λ k. earns_in s (at offers.old k) (slice_index given.now k)) }
    ensures most { (s : ℕ) → slice_index result s ≤ offer_places * top_fee }
    ensures after { (k : ℕ) → at offers.new k ≡ option_map (λ o. lent o (slice_index given.now k)) (at offers.old k) }
{
    let mut earned = [0; SECURITIES];
    // By place, and no `zip`: of the slots that a `zip` hands out nothing is known after the loop.
    for (place, slot) in offers.iter_mut().enumerate() {
        earn(slot, given[place], &mut earned);
    }
    earned
}

/// What an offer gives to what is `left` of its security's need.
fn give(slot: Option<Offer>, left: &mut [u64; SECURITIES]) -> u64
    requires { IfSome slot (SoundOffer top_elevens) }
    ensures units { result ≡ takes left.old slot }
    ensures left { (s : ℕ) → slice_index left.new s ≡ slice_index left.old s - offered_in s slot }
{
    let Some(offer) = slot else {
        return 0;
    };
    let left = &mut left[offer.security as usize];
    let units = (*left).min(offer.units as u64);
    *left -= units;
    units
}

/// An offer earns for `given` units: a part for its broker, the rest for its lender.
fn earn(slot: &mut Option<Offer>, given: u64, earned: &mut [u64; SECURITIES])
    requires room { (s : ℕ) → slice_index earned.old s ≤ offer_places * top_fee }
    requires units { given ≤ top_units }
    requires sound { IfSome slot.old (SoundOffer top_elevens) }
    ensures after { slot.new ≡ option_map (λ o. lent o given) slot.old }
    ensures earned { (s : ℕ) → slice_index earned.new s ≡ slice_index earned.old s + earns_in s slot.old given }
{
    if let Some(offer) = slot {
        let hundredth = SHARES / 100 * (given * offer.rate as u64);
        let broker = hundredth * offer.commission as u64;
        let lender = hundredth * (100 - offer.commission as u64);
        offer.lender += lender;
        offer.broker += broker;
        earned[offer.security as usize] += lender + broker;
    }
}

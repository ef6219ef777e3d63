// What the pledges of all accounts cover at once.
ghost use Rattle.std.specs.Prelude.{◌≡◌, ℕ, ◌+◌, ◌<◌, ◌≤◌, length, slice_index};
ghost use Rattle.shelf.specs.Limits.{shelf_places, top_cover};
ghost use Rattle.shelf.specs.Places.{counted, cover_of};

use crate::held::Held;
use pledge::Pledge;

/// Adds to the sum of each account what its pledges on the shelf cover on a day, in one pass over the shelf. The sums are by
/// account place; what backs no place among them is passed over.
pub fn add_covers<P: Pledge>(shelf: &[Option<Held<P>>], day: u16, sums: &mut [u64])
    requires places { length shelf.now ≤ shelf_places }
    requires room { (k : ℕ) → k < length sums.old → slice_index sums.old k ≤ top_cover }
    ensures value { (k : ℕ) → k < length sums.old → slice_index sums.new k ≡ slice_index sums.old k + cover_of P.numbers shelf.now k day }
    ensures most { (k : ℕ) → k < length sums.old → slice_index sums.new k ≤ slice_index sums.old k + top_cover }
{
    for place in shelf {
        add_cover(place, day, sums);
    }
}

/// Adds what one place covers.
fn add_cover<P: Pledge>(place: &Option<Held<P>>, day: u16, sums: &mut [u64])
    requires { (k : ℕ) → k < length sums.old → slice_index sums.old k ≤ top_cover + top_cover }
    ensures { (k : ℕ) → k < length sums.old → slice_index sums.new k ≡ slice_index sums.old k + counted k (λ p. P.numbers.cover p day) place.now }
{
    if let Some(held) = place {
        let account = held.account as usize;
        if account < sums.len() {
            sums[account] += held.pledge.cover(day);
        }
    }
}

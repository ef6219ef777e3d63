//! A shelf: a row of places for pledges of one kind, and what those of one account come to.
#![tactic(auto)]

ghost use Rattle.std.specs.Prelude.{◌≡◌, ◌≤◌, length};
ghost use Rattle.pledge.specs.Limits.{top_cents};
ghost use Rattle.shelf.specs.Limits.{shelf_places, top_cover};
ghost use Rattle.shelf.specs.Places.{counted, cover_of};

mod covers;
mod held;
mod lodging;
mod places;

pub use covers::add_covers;
pub use held::Held;
pub use lodging::Lodging;
pub use places::{clear, empty, fill, is_taken, lodged};
use pledge::Pledge;

/// The places of a shelf.
pub const SHELF_PLACES: usize = 128;

// How long a shelf is stands where it is read: shelves are lent by callers as slices of any length, to be read or changed.
/// The cents that the account's pledges on the shelf cover on a day.
pub fn cover_of<P: Pledge>(shelf: &[Option<Held<P>>], account: u8, day: u16) -> u64
    requires { length shelf.now ≤ shelf_places }
    ensures value { result ≡ cover_of P.numbers shelf.now account day }
    ensures most { result ≤ top_cover }
{
    shelf
        .iter()
        .map(|place| cover_at(place, account, day))
        .sum()
}

/// What one place adds to the account's cover: its pledge's cover if that backs the account, and else nothing.
fn cover_at<P: Pledge>(place: &Option<Held<P>>, account: u8, day: u16) -> u64
    ensures value { result ≡ counted account (λ p. P.numbers.cover p day) place.now }
    ensures most { result ≤ top_cents }
{
    match place {
        Some(held) if held.account == account => held.pledge.cover(day),
        _ => 0,
    }
}

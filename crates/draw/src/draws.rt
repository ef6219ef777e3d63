// Drawing on the account's pledges, one after another.
ghost use Rattle.std.specs.Prelude.{◌≡◌, ◌<◌, ◌≤◌, length, slice_set};
ghost use Rattle.shelf.specs.Limits.{shelf_places, top_cover};
ghost use Rattle.shelf.specs.Places.{at};
ghost use Rattle.draw.specs.Draws.{yields_at, left_at, drawn, yielded, DrawTold};

use crate::next::next_from;
use crate::turn::Turn;
use pledge::{BlockPrice, Pledge};
use shelf::Held;

/// Draws `ask` cents on the account's pledges on the shelf, on a day at a block price, and answers the cents that they yield.
/// Pledges are drawn on in the order of their turns, each for what still lacks, and none once nothing lacks.
pub fn draw_on<P: Pledge>(
    shelf: &mut [Option<Held<P>>],
    account: u8,
    ask: u64,
    day: u16,
    price: BlockPrice,
) -> u64
    requires { length shelf.old ≤ shelf_places }
    ensures yields { result ≡ yielded P.numbers shelf.old account ask day price.cents }
    ensures left { shelf.new ≡ drawn P.numbers shelf.old account ask day price.cents }
    ensures most { result ≤ top_cover }
    ensures none { ask ≡ 0 → result ≡ 0 }
    ensures told { DrawTold P.numbers shelf.old account ask day price.cents }
{
    let mut lack = ask;
    let mut total = 0;
    let mut from = Turn {
        expiry: 0,
        place: 0,
    };
    // A loop that asks for the next turn: the turns in order would be a sorted list of them, and a call has no memory for one.
    while lack > 0 {
        let Some(next) = next_from(shelf, account, from) else {
            return total;
        };
        let paid = draw_at(shelf, next.place, lack, day, price);
        total += paid;
        lack = lack.saturating_sub(paid);
        from = Turn {
            place: next.place + 1,
            ..next
        };
    }
    total
}

// Ask, day and price go on as they came: a pledge is drawn on by these three, by the trait that its kind implements.
/// Draws on the pledge at place `k` for `ask` cents.
fn draw_at<P: Pledge>(
    shelf: &mut [Option<Held<P>>],
    k: usize,
    ask: u64,
    day: u16,
    price: BlockPrice,
) -> u64
    requires { k < length shelf.old }
    ensures yields { result ≡ yields_at P.numbers (at shelf.old k) ask day price.cents }
    ensures left { shelf.new ≡ slice_set shelf.old k (left_at P.numbers (at shelf.old k) ask day price.cents) }
{
    draw_in(&mut shelf[k], ask, day, price)
}

/// Draws on what a place holds for `ask` cents.
fn draw_in<P: Pledge>(place: &mut Option<Held<P>>, ask: u64, day: u16, price: BlockPrice) -> u64
    ensures yields { result ≡ yields_at P.numbers place.old ask day price.cents }
    ensures left { place.new ≡ left_at P.numbers place.old ask day price.cents }
{
    // A match: what `map_or` would be given has to change the pledge, and the law of the kind speaks of that call alone.
    match place {
        Some(held) => held.pledge.draw(ask, day, price),
        None => 0,
    }
}

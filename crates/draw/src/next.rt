// Whose turn is next.
ghost use Rattle.std.specs.Prelude.{◌≡◌, length};
ghost use Rattle.draw.specs.Nexts.{candidate, NextIs};

use crate::turn::Turn;
use pledge::Pledge;
use shelf::Held;

/// The first of the account's turns that do not come before `from`, if there is one.
pub fn next_from<P: Pledge>(shelf: &[Option<Held<P>>], account: u8, from: Turn) -> Option<Turn>
    ensures { NextIs P.numbers shelf.now account from (length shelf.now) result }
{
    shelf
        .iter()
        .enumerate()
        .filter_map(|(k, place)| candidate_at(place, account, from, k))
        .min()
}

/// The turn of the pledge at place `k`, if it backs the account and its turn does not come before `from`.
fn candidate_at<P: Pledge>(
    place: &Option<Held<P>>,
    account: u8,
    from: Turn,
    k: usize,
) -> Option<Turn>
    ensures { result ≡ candidate P.numbers account from k place.now }
{
    let held = place.as_ref().filter(|held| held.account == account)?;
    let turn = Turn {
        expiry: held.pledge.expiry(),
        place: k,
    };
    (turn >= from).then_some(turn)
}

// One place of a shelf.
ghost use Rattle.std.specs.Prelude.{◌≡◌, ◌<◌, length, set, is_some, Some, None};
ghost use Rattle.shelf.specs.Places.{at, cleared, spared};
ghost use Rattle.shelf.specs.Lodgings.{lodging};

use crate::held::Held;
use crate::lodging::Lodging;
use pledge::Pledge;

/// Whether a place holds a pledge; past the end of the shelf none does.
pub fn is_taken<P>(shelf: &[Option<Held<P>>], place: u8) -> bool
    ensures { result ≡ is_some (at shelf.now place) }
{
    matches!(shelf.get(place as usize), Some(Some(_)))
}

/// What is lodged in a place, with its cover on a day; past the end of the shelf nothing is.
pub fn lodged<P: Pledge>(shelf: &[Option<Held<P>>], place: u8, day: u16) -> Option<Lodging>
    ensures { result ≡ lodging P.numbers day (at shelf.now place) }
{
    let held = shelf.get(place as usize)?.as_ref()?;
    Some(Lodging {
        account: held.account,
        expiry: held.pledge.expiry(),
        cover: held.pledge.cover(day),
    })
}

/// Puts a pledge that backs an account into a place.
pub fn fill<P: Drop>(shelf: &mut [Option<Held<P>>], place: u8, account: u8, pledge: P)
    requires { place < length shelf.old }
    ensures { shelf.new ≡ set shelf.old place (Some (record { account = account; pledge = pledge })) }
{
    shelf[place as usize] = Some(Held { account, pledge });
}

/// Lets go what a place holds.
pub fn empty<P: Drop>(shelf: &mut [Option<Held<P>>], place: u8)
    requires { place < length shelf.old }
    ensures { shelf.new ≡ set shelf.old place None }
{
    shelf[place as usize] = None;
}

/// Lets go every pledge that backs the account.
pub fn clear<P: Drop>(shelf: &mut [Option<Held<P>>], account: u8)
    ensures { shelf.new ≡ cleared account shelf.old }
{
    for place in shelf.iter_mut() {
        spare(place, account);
    }
}

/// Lets go what a place holds if it backs the account.
fn spare<P: Drop>(place: &mut Option<Held<P>>, account: u8)
    ensures { place.new ≡ spared account place.old }
{
    if let Some(held) = place {
        if held.account == account {
            *place = None;
        }
    }
}

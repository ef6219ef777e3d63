// How many places two shelves have.
ghost use Rattle.std.specs.Prelude.{◌≡◌, not};
ghost use Rattle.margin.specs.Backing.{cut};

use shelf::SHELF_PLACES;

/// How many places each of the two shelves has that are lent to a call.
#[derive(Clone, Copy, Debug, PartialEq, Eq)]
pub struct Lengths {
    pub first: usize,
    pub second: usize,
}

impl Lengths {
    /// Whether each has the places of a shelf.
    pub fn are_whole(self) -> bool
        ensures { result ≡ not (cut self.first self.second) }
    {
        self.first == SHELF_PLACES && self.second == SHELF_PLACES
    }
}

ghost use Rattle.std.specs.Prelude.{◌≡◌};
ghost use Rattle.instruction.specs.Unread.{of_short};

use cursor::Short;

/// Why a record's fields cannot be read, and the record's place.
#[derive(Clone, Copy, Debug, PartialEq, Eq)]
pub enum Unread {
    /// No kind has this number.
    Kind { place: usize },
    /// The record is too short for its kind.
    Short { place: usize },
}

impl From<Short> for Unread {
    ghost from_gives = { λ s u. u ≡ of_short s };

    fn from(s: Short) -> Unread {
        Unread::Short { place: s.place }
    }
}

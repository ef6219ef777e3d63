// Figures of the book's measures and tests.
ghost use Rattle.std.specs.Prelude.{◌≡◌};
ghost use Rattle.figures.specs.Books.{BookFiguresHold, worked};

use lending::{floor, target};

/// What ten applied units have to be covered with at a price of 5,000, in cents.
#[derive(Clone, Copy, Debug, PartialEq, Eq)]
pub struct BookFigures {
    pub floor: u64,
    pub target: u64,
}

/// Measures ten applied units. The contract says what comes out, and that the book's definitions give it and the rate that
/// still stands.
pub fn book_figures() -> BookFigures
    ensures figures { result ≡ worked }
    ensures rules { BookFiguresHold }
{
    BookFigures {
        floor: floor(0, 10, 5_000),
        target: target(0, 10, 5_000),
    }
}

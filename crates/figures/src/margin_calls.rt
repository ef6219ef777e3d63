// Figures of margin calls.
ghost use Rattle.std.specs.Prelude.{◌≡◌};
ghost use Rattle.figures.specs.Notices.{NoticeFiguresHold, worked};

use lending::{floor, target};

/// What ten owed units have to be covered with at a price of 10,000, in cents.
// A record for each set of figures, though two have the same fields: each says which figures its function gives, and the contract
// of each names its own.
#[derive(Clone, Copy, Debug, PartialEq, Eq)]
pub struct NoticeFigures {
    pub floor: u64,
    pub target: u64,
}

/// Measures ten owed units. The contract says what comes out, and who gets a notice by the book's definitions.
pub fn notice_figures() -> NoticeFigures
    ensures figures { result ≡ worked }
    ensures rules { NoticeFiguresHold }
{
    NoticeFigures {
        floor: floor(10, 0, 10_000),
        target: target(10, 0, 10_000),
    }
}

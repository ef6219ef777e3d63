//! What holds of every run of calls on a book: of the seven that need no margin.
#![tactic(auto)]

ghost use Rattle.laws.specs.Laws.{BookLaws};

use pledge::Pledge;

/// Whatever the two kinds of pledge, the laws hold of every run of calls from a new book and empty shelves.
pub fn book_laws_hold<P: Pledge, Q: Pledge>()
    ensures { BookLaws P.Pledge.numbers Q.Pledge.numbers }
{}

//! What holds of every run of calls on a book.
#![tactic(auto)]

ghost use Rattle.all_laws.specs.Laws.{BookLaws};

use pledge::Pledge;

/// Whatever the two kinds of pledge, the laws hold of every run of calls from a new book and empty shelves.
pub fn all_laws_hold<P: Pledge, Q: Pledge>()
    ensures { BookLaws P.Pledge.numbers Q.Pledge.numbers }
{}

// Figures of eleven o'clock.
ghost use Rattle.figures.specs.Lendings.{LendingFiguresHold};

/// What offers earn and accounts pay at eleven, by the book's definitions.
pub fn lending_figures()
    ensures { LendingFiguresHold }
{}

/// When a pledge has its turn to be drawn on: nearer expiry first, and then lower place, which is the order of the fields.
#[derive(Clone, Copy, PartialEq, Eq, PartialOrd, Ord)]
pub struct Turn {
    /// The last day on which the pledge pays.
    pub expiry: u16,
    /// Its place on the shelf.
    pub place: usize,
}

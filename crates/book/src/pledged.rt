/// A pledge, and the shelf that it goes onto.
// No `Result`: neither shelf is the failure of the other.
#[derive(Drop)]
pub enum Pledged<P, Q> {
    First(P),
    Second(Q),
}

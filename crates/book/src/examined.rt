use crate::slip::Slip;

/// What an examination finds.
// No `Option` of the lack and the slip: both cases are findings, and each is named for what it says of the notice.
pub enum Examined {
    /// Cover is at the target or above: the notice is met and closed.
    Met,
    /// Cover is so many cents below the target, and the slip holds the notice.
    Short(i64, Slip),
}

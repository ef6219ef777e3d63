/// The part of the day that the book is in.
#[derive(Clone, Copy, Debug, PartialEq, Eq)]
pub enum Hour {
    /// Before the first day.
    Blank,
    Morning,
    /// From ten to eleven, while notices are answered.
    Calling,
    Afternoon,
}

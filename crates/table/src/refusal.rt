/// Why a call is refused, in the order of the numbers by which the causes are known.
#[derive(Clone, Copy, Debug, PartialEq, Eq)]
pub enum Refusal {
    NoSuchPlace,
    OutOfRange,
    WrongHour,
    PlaceTaken,
    PlaceEmpty,
    Barred,
    UnitsOutOfReach,
    RateTooHigh,
    NoNotice,
    UnderSlip,
    NoticeOpen,
    BelowTarget,
    NotSettled,
    BalanceTooHigh,
    Expired,
    LastDay,
}

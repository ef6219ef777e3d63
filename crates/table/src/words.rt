// The number and the words of each refusal.
ghost use Rattle.std.specs.Prelude.{◌≡◌, Some};
ghost use Rattle.table.specs.Refusals.{naming};

use super::refusal::Refusal;
use std::error::Error;
use std::fmt;

impl Refusal {
    /// The number by which it is known.
    pub fn number(&self) -> u8
        ensures { result ≡ (naming self.now).number }
    {
        *self as u8 + 1
    }

    /// Its cause, in words.
    pub fn words(&self) -> &'static str
        ensures { result.now ≡ (naming self.now).words }
    {
        match self {
            Refusal::NoSuchPlace => "no such place, security or shelf",
            Refusal::OutOfRange => "a value is out of range",
            Refusal::WrongHour => "wrong hour",
            Refusal::PlaceTaken => "the place is taken",
            Refusal::PlaceEmpty => "the place is empty",
            Refusal::Barred => "the account is barred",
            Refusal::UnitsOutOfReach => "more units than may be",
            Refusal::RateTooHigh => "the rate is above 7 per cent of the price",
            Refusal::NoNotice => "no open notice, or no slip out",
            Refusal::UnderSlip => "a slip is out for the account",
            Refusal::NoticeOpen => "a notice is open",
            Refusal::BelowTarget => "cover would miss the target",
            Refusal::NotSettled => "units or debt are left",
            Refusal::BalanceTooHigh => "the balance would be too high",
            Refusal::Expired => "the pledge expires too soon",
            Refusal::LastDay => "the last day is over",
        }
    }
}

impl fmt::Display for Refusal {
    ghost output = { λ refusal. Some (naming refusal).words };

    fn fmt<W: fmt::Write>(&self, f: &mut fmt::Formatter<W>) -> fmt::Result {
        f.write_str(self.words())
    }
}

impl Error for Refusal {}

impl From<Refusal> for u8 {
    ghost from_gives = { λ refusal n. n ≡ (naming refusal).number };

    fn from(refusal: Refusal) -> u8 {
        refusal.number()
    }
}

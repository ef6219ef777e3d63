ghost use Rattle.std.specs.Prelude.{◌≡◌, ◌++◌, Some, codes};
ghost use Rattle.std.specs.Fmt.{decimal};
ghost use Rattle.instruction.specs.Kind.{Decodes, kind_number, kind_name};

use std::error::Error;
use std::fmt;

/// The kinds of record, which a file writes as the numbers 1 to 16.
#[derive(Clone, Copy, Debug, PartialEq, Eq)]
pub enum Kind {
    Open = 1,
    Enrol = 2,
    Offer = 3,
    Withdraw = 4,
    Apply = 5,
    Return = 6,
    Deposit = 7,
    Guarantee = 8,
    Bond = 9,
    Release = 10,
    Ten = 11,
    ExamineWait = 12,
    ExamineBuyIn = 13,
    Eleven = 14,
    PayOut = 15,
    Refund = 16,
}

/// A number that no kind has.
#[derive(Clone, Copy, Debug, PartialEq, Eq)]
pub struct UnknownKind(pub u8);

impl Kind {
    /// The name of the call that a record of the kind tells to make.
    pub fn name(self) -> &'static str
        ensures { result.now ≡ kind_name self }
    {
        match self {
            Kind::Open => "open",
            Kind::Enrol => "enrol",
            Kind::Offer => "offer",
            Kind::Withdraw => "withdraw",
            Kind::Apply => "apply",
            Kind::Return => "return",
            Kind::Deposit => "deposit",
            Kind::Guarantee => "guarantee",
            Kind::Bond => "bond",
            Kind::Release => "release",
            Kind::Ten => "ten",
            Kind::ExamineWait => "examine-wait",
            Kind::ExamineBuyIn => "examine-buy-in",
            Kind::Eleven => "eleven",
            Kind::PayOut => "pay-out",
            Kind::Refund => "refund",
        }
    }
}

impl From<Kind> for u8 {
    ghost from_gives = { λ kind number. number ≡ kind_number kind };

    fn from(kind: Kind) -> u8 {
        kind as u8
    }
}

impl TryFrom<u8> for Kind {
    type Error = UnknownKind;

    ghost try_from_gives = { Decodes };

    fn try_from(number: u8) -> Result<Kind, UnknownKind> {
        match number {
            1 => Ok(Kind::Open),
            2 => Ok(Kind::Enrol),
            3 => Ok(Kind::Offer),
            4 => Ok(Kind::Withdraw),
            5 => Ok(Kind::Apply),
            6 => Ok(Kind::Return),
            7 => Ok(Kind::Deposit),
            8 => Ok(Kind::Guarantee),
            9 => Ok(Kind::Bond),
            10 => Ok(Kind::Release),
            11 => Ok(Kind::Ten),
            12 => Ok(Kind::ExamineWait),
            13 => Ok(Kind::ExamineBuyIn),
            14 => Ok(Kind::Eleven),
            15 => Ok(Kind::PayOut),
            16 => Ok(Kind::Refund),
            _ => Err(UnknownKind(number)),
        }
    }
}

impl fmt::Display for Kind {
    ghost output = { λ kind. Some (kind_name kind) };

    fn fmt<W: fmt::Write>(&self, f: &mut fmt::Formatter<W>) -> fmt::Result {
        f.write_str(self.name())
    }
}

impl fmt::Display for UnknownKind {
    ghost output = { λ e. Some (codes "no kind has the number " ++ decimal e.0) };

    fn fmt<W: fmt::Write>(&self, f: &mut fmt::Formatter<W>) -> fmt::Result {
        write!(f, "no kind has the number {}", self.0)
    }
}

impl Error for UnknownKind {}

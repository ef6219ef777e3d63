ghost use Rattle.std.specs.Prelude.{◌≡◌};
ghost use Rattle.instruction.specs.Said.{told};
ghost use Rattle.instruction.specs.Kind.{kind_of};
ghost use Rattle.instruction.specs.Names.{name};

use super::kind::Kind;

/// What a record tells to do. `Open` borrows the 32 bytes of its eight prices, which `read_prices` reads.
#[derive(Clone, Copy, Debug, PartialEq, Eq)]
pub enum Instruction<'a> {
    Open {
        prices: &'a [u8],
    },
    Enrol {
        account: u8,
        firm: u16,
        security: u8,
    },
    Offer {
        place: u16,
        security: u8,
        units: u16,
        rate: u32,
        commission: u8,
    },
    Withdraw {
        place: u16,
    },
    Apply {
        account: u8,
        units: u16,
    },
    Return {
        account: u8,
        units: u16,
    },
    Deposit {
        account: u8,
        cents: u64,
    },
    Guarantee {
        place: u8,
        account: u8,
        thousands: u32,
        expiry: u16,
    },
    Bond {
        place: u8,
        account: u8,
        blocks: u16,
        expiry: u16,
    },
    Release {
        shelf: u8,
        place: u8,
    },
    Ten,
    ExamineWait {
        account: u8,
    },
    ExamineBuyIn {
        account: u8,
        share_price: u32,
        charges: u64,
        block_price: u32,
    },
    Eleven,
    PayOut {
        place: u16,
    },
    Refund {
        account: u8,
    },
}

impl Instruction<'_> {
    /// The kind of the record that tells to do this.
    pub fn kind(&self) -> Kind
        ensures { result ≡ kind_of (told self.now) }
    {
        match self {
            Instruction::Open { .. } => Kind::Open,
            Instruction::Enrol { .. } => Kind::Enrol,
            Instruction::Offer { .. } => Kind::Offer,
            Instruction::Withdraw { .. } => Kind::Withdraw,
            Instruction::Apply { .. } => Kind::Apply,
            Instruction::Return { .. } => Kind::Return,
            Instruction::Deposit { .. } => Kind::Deposit,
            Instruction::Guarantee { .. } => Kind::Guarantee,
            Instruction::Bond { .. } => Kind::Bond,
            Instruction::Release { .. } => Kind::Release,
            Instruction::Ten => Kind::Ten,
            Instruction::ExamineWait { .. } => Kind::ExamineWait,
            Instruction::ExamineBuyIn { .. } => Kind::ExamineBuyIn,
            Instruction::Eleven => Kind::Eleven,
            Instruction::PayOut { .. } => Kind::PayOut,
            Instruction::Refund { .. } => Kind::Refund,
        }
    }

    /// The name of the call.
    pub fn name(&self) -> &'static str
        ensures { result.now ≡ name (told self.now) }
    {
        self.kind().name()
    }
}

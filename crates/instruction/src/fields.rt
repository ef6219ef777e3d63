ghost use Rattle.instruction.specs.Kind.{kind_number};
ghost use Rattle.instruction.specs.Fields.{Fields};
ghost use Rattle.instruction.specs.Unread.{Instructs};

use super::instruction::Instruction;
use super::kind::Kind;
use super::prices::PRICES;
use super::unread::Unread;
use cursor::{Cursor, Short};

/// The fields of a kind, in their order.
// Each kind of several fields has a function of its own: with all of them written out in the arms, the compiler puts every
// instruction together from single bytes, and reading a file takes up to 1.7 times as long.
pub(crate) fn read_fields<'a>(kind: Kind, c: &mut Cursor<'a>) -> Result<Instruction<'a>, Unread>
    ensures { Instructs (kind_number kind) c.old result c.new }
{
    match kind {
        Kind::Open => Ok(Instruction::Open {
            prices: c.take_part(PRICES)?,
        }),
        Kind::Enrol => Ok(enrol(c)?),
        Kind::Offer => Ok(offer(c)?),
        Kind::Withdraw => Ok(Instruction::Withdraw { place: c.take()? }),
        Kind::Apply => Ok(apply(c)?),
        Kind::Return => Ok(return_units(c)?),
        Kind::Deposit => Ok(deposit(c)?),
        Kind::Guarantee => Ok(guarantee(c)?),
        Kind::Bond => Ok(bond(c)?),
        Kind::Release => Ok(release(c)?),
        Kind::Ten => Ok(Instruction::Ten),
        Kind::ExamineWait => Ok(Instruction::ExamineWait { account: c.take()? }),
        Kind::ExamineBuyIn => Ok(examine_buy_in(c)?),
        Kind::Eleven => Ok(Instruction::Eleven),
        Kind::PayOut => Ok(Instruction::PayOut { place: c.take()? }),
        Kind::Refund => Ok(Instruction::Refund { account: c.take()? }),
    }
}

fn enrol<'a>(c: &mut Cursor<'a>) -> Result<Instruction<'a>, Short>
    ensures { Fields 2 c.old result c.new }
{
    Ok(Instruction::Enrol {
        account: c.take()?,
        firm: c.take()?,
        security: c.take()?,
    })
}

fn offer<'a>(c: &mut Cursor<'a>) -> Result<Instruction<'a>, Short>
    ensures { Fields 3 c.old result c.new }
{
    Ok(Instruction::Offer {
        place: c.take()?,
        security: c.take()?,
        units: c.take()?,
        rate: c.take()?,
        commission: c.take()?,
    })
}

fn apply<'a>(c: &mut Cursor<'a>) -> Result<Instruction<'a>, Short>
    ensures { Fields 5 c.old result c.new }
{
    Ok(Instruction::Apply {
        account: c.take()?,
        units: c.take()?,
    })
}

fn return_units<'a>(c: &mut Cursor<'a>) -> Result<Instruction<'a>, Short>
    ensures { Fields 6 c.old result c.new }
{
    Ok(Instruction::Return {
        account: c.take()?,
        units: c.take()?,
    })
}

fn deposit<'a>(c: &mut Cursor<'a>) -> Result<Instruction<'a>, Short>
    ensures { Fields 7 c.old result c.new }
{
    Ok(Instruction::Deposit {
        account: c.take()?,
        cents: c.take()?,
    })
}

fn guarantee<'a>(c: &mut Cursor<'a>) -> Result<Instruction<'a>, Short>
    ensures { Fields 8 c.old result c.new }
{
    Ok(Instruction::Guarantee {
        place: c.take()?,
        account: c.take()?,
        thousands: c.take()?,
        expiry: c.take()?,
    })
}

fn bond<'a>(c: &mut Cursor<'a>) -> Result<Instruction<'a>, Short>
    ensures { Fields 9 c.old result c.new }
{
    Ok(Instruction::Bond {
        place: c.take()?,
        account: c.take()?,
        blocks: c.take()?,
        expiry: c.take()?,
    })
}

fn release<'a>(c: &mut Cursor<'a>) -> Result<Instruction<'a>, Short>
    ensures { Fields 10 c.old result c.new }
{
    Ok(Instruction::Release {
        shelf: c.take()?,
        place: c.take()?,
    })
}

fn examine_buy_in<'a>(c: &mut Cursor<'a>) -> Result<Instruction<'a>, Short>
    ensures { Fields 13 c.old result c.new }
{
    Ok(Instruction::ExamineBuyIn {
        account: c.take()?,
        share_price: c.take()?,
        charges: c.take()?,
        block_price: c.take()?,
    })
}

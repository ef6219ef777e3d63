// The fields of an instruction as ` name=value`, in the order of the file.
use dayfile::{Instruction, read_prices};
use std::fmt;

/// The fields of an instruction, each after a space.
#[derive(Clone, Copy)]
pub struct Fields<'a>(pub &'a Instruction<'a>);

impl fmt::Display for Fields<'_> {
    // One table for all the instructions, an arm for each, so it is longer than a function that does steps.
    fn fmt<W: fmt::Write>(&self, f: &mut fmt::Formatter<W>) -> fmt::Result {
        match self.0 {
            Instruction::Open { prices } => print_prices(f, prices),
            Instruction::Enrol {
                account,
                firm,
                security,
            } => write!(f, " account={account} firm={firm} security={security}"),
            Instruction::Offer {
                place,
                security,
                units,
                rate,
                commission,
            } => write!(
                f,
                " place={place} security={security} units={units} rate={rate} commission={commission}"
            ),
            Instruction::Withdraw { place } | Instruction::PayOut { place } => write!(
                f,
                " place={place}"
            ),
            Instruction::Apply { account, units } | Instruction::Return { account, units } =>
                write!(f, " account={account} units={units}"),
            Instruction::Deposit { account, cents } => write!(
                f,
                " account={account} cents={cents}"
            ),
            Instruction::Guarantee {
                place,
                account,
                thousands,
                expiry,
            } => write!(
                f,
                " place={place} account={account} thousands={thousands} expiry={expiry}"
            ),
            Instruction::Bond {
                place,
                account,
                blocks,
                expiry,
            } => write!(
                f,
                " place={place} account={account} blocks={blocks} expiry={expiry}"
            ),
            Instruction::Release { shelf, place } => write!(f, " shelf={shelf} place={place}"),
            Instruction::Ten | Instruction::Eleven => Ok(()),
            Instruction::ExamineWait { account } | Instruction::Refund { account } => write!(
                f,
                " account={account}"
            ),
            Instruction::ExamineBuyIn {
                account,
                share_price,
                charges,
                block_price,
            } => write!(
                f,
                " account={account} share-price={share_price} charges={charges} block-price={block_price}"
            ),
        }
    }
}

fn print_prices<W: fmt::Write>(f: &mut fmt::Formatter<W>, part: &[u8]) -> fmt::Result {
    for (security, price) in read_prices(part).iter().flatten().enumerate() {
        write!(f, " price{security}={price}")?;
    }
    Ok(())
}

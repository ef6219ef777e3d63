// What the day-file reader says of a file, as outlines: once by a sink that `read_file` fills, once record by record.
ghost use Rattle.std.specs.Prelude.{◌≡◌, ◌+◌, vec_len, IfOk, IsOkAnd};

use super::outline::{Found, Outline, Stop};
use dayfile::{Instruction, Reader, Record, Sink, read_file, read_prices};
use std::alloc::{AllocError, Global};

/// The outlines of the records that were handed over, one for each call of `take`, unless memory was missing for one.
#[derive(Drop)]
struct Taken {
    heap: Global,
    records: Result<Vec<Outline>, AllocError>,
}

impl Sink for Taken {
    ghost takes = { λ s r t. IfOk t.records (λ after. IsOkAnd s.records (λ before. vec_len after ≡ vec_len before + 1)) };

    fn take(&mut self, record: Record<'_>) {
        if let Ok(records) = &mut self.records {
            let kept = keep(records, &record, self.heap);
            if let Err(error) = kept {
                self.records = Err(error);
            }
        }
    }
}

fn keep(records: &mut Vec<Outline>, record: &Record<'_>, heap: Global) -> Result<(), AllocError>
    ensures { IfOk result (λ _. vec_len records.new ≡ vec_len records.old + 1) }
{
    records.push(outline_of(record, heap)?)?;
    Ok(())
}

/// What `read_file` hands to a sink, and its answer.
pub(crate) fn handed_over(file: &[u8], heap: Global) -> Result<Found, AllocError> {
    let mut taken = Taken {
        heap,
        records: Ok(Vec::new(heap)),
    };
    let end = read_file(file, &mut taken);
    Found::new(taken.records?, end.map_err(Stop::from))
}

/// What a `Reader` gives, asked again and again.
pub(crate) fn one_by_one(file: &[u8], heap: Global) -> Result<Found, AllocError> {
    let mut records = Vec::new(heap);
    let end = ask_all(file, &mut records, heap);
    Found::new(records, end)
}

fn ask_all(file: &[u8], records: &mut Vec<Outline>, heap: Global) -> Result<(), Stop> {
    let mut reader = Reader::open(file)?;
    while let Some(record) = reader.next_record()? {
        records.push(outline_of(&record, heap)?)?;
    }
    Ok(())
}

/// The outline of a record that the reader gave.
fn outline_of(record: &Record<'_>, heap: Global) -> Result<Outline, AllocError> {
    let kind = u8::from(record.instruction.kind());
    let fields = fields_of(&record.instruction);
    Outline::new(kind, fields, record.memo.bytes, record.memo.place, heap)
}

fn fields_of(instruction: &Instruction<'_>) -> [u64; 8] {
    match *instruction {
        Instruction::Open { prices } => prices_of(prices),
        Instruction::Enrol {
            account,
            firm,
            security,
        } => padded(&[account as u64, firm as u64, security as u64]),
        Instruction::Offer {
            place,
            security,
            units,
            rate,
            commission,
        } => padded(&[
            place as u64,
            security as u64,
            units as u64,
            rate as u64,
            commission as u64,
        ]),
        Instruction::Withdraw { place } => padded(&[place as u64]),
        Instruction::Apply { account, units } => padded(&[account as u64, units as u64]),
        Instruction::Return { account, units } => padded(&[account as u64, units as u64]),
        Instruction::Deposit { account, cents } => padded(&[account as u64, cents]),
        Instruction::Guarantee {
            place,
            account,
            thousands,
            expiry,
        } => padded(&[
            place as u64,
            account as u64,
            thousands as u64,
            expiry as u64,
        ]),
        Instruction::Bond {
            place,
            account,
            blocks,
            expiry,
        } => padded(&[place as u64, account as u64, blocks as u64, expiry as u64]),
        Instruction::Release { shelf, place } => padded(&[shelf as u64, place as u64]),
        Instruction::Ten => padded(&[]),
        Instruction::ExamineWait { account } => padded(&[account as u64]),
        Instruction::ExamineBuyIn {
            account,
            share_price,
            charges,
            block_price,
        } => padded(&[
            account as u64,
            share_price as u64,
            charges,
            block_price as u64,
        ]),
        Instruction::Eleven => padded(&[]),
        Instruction::PayOut { place } => padded(&[place as u64]),
        Instruction::Refund { account } => padded(&[account as u64]),
    }
}

/// The eight prices of a part. One that does not hold eight gets numbers that are no prices.
fn prices_of(part: &[u8]) -> [u64; 8] {
    read_prices(part).map_or([u64::MAX; 8], |prices| prices.map(u64::from))
}

/// The values, and zeros past them.
fn padded(values: &[u64]) -> [u64; 8] {
    std::array::from_fn(|i| values.get(i).copied().unwrap_or(0))
}

// Files made by chance: good ones, good ones that were damaged, and bytes with no order.
use super::agree::Readers;
use super::made::{KINDS, put_record};
use super::outline::Found;
use super::second::second_reading;
use crate::dice::Dice;
use std::alloc::{AllocError, Global};
use std::collections::BTreeMap;
use std::test::Fail;

/// A good file with so many records.
fn good_file(dice: &mut Dice, records: usize, heap: Global) -> Result<Vec<u8>, AllocError> {
    let mut file = vec![in heap; 1]?;
    for _ in 0..records {
        let (kind, width) = KINDS
            .get(dice.pick::<usize>(16))
            .copied()
            .unwrap_or((11, 0));
        let fields = some_bytes(dice, width, 0, 256, heap)?;
        // Now and then the longest memo.
        let memo_length = if dice.one_in(8) { 64 } else { dice.pick(10) };
        let memo = some_bytes(dice, memo_length, 33, 94, heap)?;
        put_record(&mut file, kind, &fields, &memo)?;
    }
    Ok(file)
}

/// So many bytes, each one of the `choices` from `low` on.
fn some_bytes(
    dice: &mut Dice,
    count: usize,
    low: u8,
    choices: u64,
    heap: Global,
) -> Result<Vec<u8>, AllocError> {
    (0..count)
        .map(|_| dice.pick::<u8>(choices).wrapping_add(low))
        .collect(heap)
}

/// One byte of the file becomes another.
fn with_a_change(dice: &mut Dice, mut file: Vec<u8>) -> Vec<u8> {
    let place = some_place(dice, &file);
    if let Some(byte) = file.get_mut(place) {
        *byte = dice.pick(256);
    }
    file
}

/// Only a part from the start is left.
fn cut_off(dice: &mut Dice, mut file: Vec<u8>) -> Vec<u8> {
    let place = some_place(dice, &file);
    file.truncate(place);
    file
}

/// Up to four bytes more in the middle.
fn with_more(dice: &mut Dice, file: Vec<u8>, heap: Global) -> Result<Vec<u8>, AllocError> {
    let place = some_place(dice, &file);
    let (front, back) = file.split_at_checked(place).unwrap_or((&[], &[]));
    let mut longer = front.to_vec(heap)?;
    let count = dice.pick::<usize>(4).wrapping_add(1);
    longer.extend_from_slice(&some_bytes(dice, count, 0, 256, heap)?)?;
    longer.extend_from_slice(back)?;
    Ok(longer)
}

/// A place of the file's bytes.
fn some_place(dice: &mut Dice, file: &[u8]) -> usize {
    dice.pick(file.len() as u64)
}

/// Bytes with no order; the version is mostly there.
fn no_order(dice: &mut Dice, heap: Global) -> Result<Vec<u8>, AllocError> {
    let version = if dice.one_in(8) { dice.pick(256) } else { 1 };
    let mut file = vec![in heap; version]?;
    let count = dice.pick::<usize>(40);
    file.extend((0..count).map(|_| low_byte(dice)))?;
    Ok(file)
}

/// Most bytes are low, so that lengths and kinds are often possible.
fn low_byte(dice: &mut Dice) -> u8 {
    match dice.below(4) {
        0 | 1 => 0,
        2 => dice.pick(20),
        _ => dice.pick(256),
    }
}

/// The file of a round: the five ways take turns.
fn file_of(round: usize, dice: &mut Dice, heap: Global) -> Result<Vec<u8>, AllocError> {
    let records = dice.pick(9);
    let file = good_file(dice, records, heap)?;
    // No table of ways: some want the heap, and one is the file as it is.
    match round % 5 {
        0 => Ok(file),
        1 => Ok(with_a_change(dice, file)),
        2 => Ok(cut_off(dice, file)),
        3 => with_more(dice, file, heap),
        _ => no_order(dice, heap),
    }
}

/// How many files were good with three records or more, and how many had each fault, by its number.
#[derive(Drop)]
struct Tally {
    good: usize,
    faults: BTreeMap<u8, usize>,
}

impl Tally {
    fn count(&mut self, found: &Found) -> Result<(), AllocError> {
        match found.fault {
            Some(told) => {
                let faults = self.faults.entry(told.number)?.or_insert(0);
                *faults = faults.saturating_add(1);
            }
            None if found.records.len() > 2 => self.good = self.good.saturating_add(1),
            None => {}
        }
        Ok(())
    }
}

#[test]
fn both_agree_on_files_made_by_chance(rt: HostRuntime) -> Result<(), Fail> {
    let heap = rt.alloc();
    let readers = Readers { rt: &rt, heap };
    let mut dice = Dice::new(20_261_118);
    let mut tally = Tally {
        good: 0,
        faults: BTreeMap::new(heap),
    };
    for round in 0..5_000 {
        let file = file_of(round, &mut dice, heap)?;
        let found = second_reading(&file, heap)?;
        readers.reader_finds(&format_args!("file {round}"), &found, &file)?;
        tally.count(&found)?;
    }
    assert!(rt; tally.good >= 500, "too few good files");
    for number in 20..25 {
        let count = tally.faults.get(&number).copied().unwrap_or(0);
        assert!(rt; count >= 10, "too few files with fault {number}");
    }
    Ok(())
}

/// A good file is read to its end by both: were both to refuse it, they would agree all the same.
#[test]
fn good_files_are_read_whole(rt: HostRuntime) -> Result<(), Fail> {
    let heap = rt.alloc();
    let readers = Readers { rt: &rt, heap };
    let mut dice = Dice::new(81_116_202);
    for round in 0..500 {
        let records = dice.pick(100);
        let file = good_file(&mut dice, records, heap)?;
        readers.both_find(&format_args!("file {round}"), &file, records, None)?;
    }
    Ok(())
}

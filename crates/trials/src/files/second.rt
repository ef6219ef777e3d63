// A second reader: a table of widths, and slices cut from the front.
ghost use Rattle.std.specs.Prelude.{◌<◌, length, IfSome};

use super::outline::{Found, Outline, Stop};
use dayfile::{Layer, Told};
use std::alloc::{AllocError, Global};

/// The widths in bytes of the fields of each kind, from kind 1 on.
const WIDTHS: [&'static [usize]; 16] = [
    &[4, 4, 4, 4, 4, 4, 4, 4],
    &[1, 2, 1],
    &[2, 1, 2, 4, 1],
    &[2],
    &[1, 2],
    &[1, 2],
    &[1, 8],
    &[1, 1, 4, 2],
    &[1, 1, 2, 2],
    &[1, 1],
    &[],
    &[1],
    &[1, 4, 8, 4],
    &[],
    &[2],
    &[1],
];

/// The widths of a kind's fields; `None` where no kind has the number.
pub(crate) fn widths_of(kind: u8) -> Option<&'static [usize]> {
    let row = usize::from(kind).checked_sub(1)?;
    WIDTHS.get(row).copied()
}

/// What the file says, by the second reader.
pub(crate) fn second_reading(file: &[u8], heap: Global) -> Result<Found, AllocError> {
    let mut records = Vec::new(heap);
    let end = read_all(file, &mut records, heap);
    Found::new(records, end)
}

fn read_all(file: &[u8], records: &mut Vec<Outline>, heap: Global) -> Result<(), Stop> {
    if file.len() > 65_536 {
        return Err(Stop::Fault(told(Layer::File, 25, 65_536)));
    }
    let Some((1, mut rest)) = file.split_first() else {
        return Err(Stop::Fault(told(Layer::File, 20, 0)));
    };
    while !rest.is_empty() {
        let place = file.len().wrapping_sub(rest.len());
        let (body, after) = cut(rest).ok_or(told(Layer::Record, 23, place))?;
        records.push(read_body(body, place, heap)?)?;
        rest = after;
    }
    Ok(())
}

/// The bytes that the two bytes of length measure off, and what comes after them.
fn cut(rest: &[u8]) -> Option<(&[u8], &[u8])>
    ensures { IfSome result (λ parts. length parts.1.now < length rest.now) }
{
    let (length, tail) = rest.split_at_checked(2)?;
    tail.split_at_checked(usize::try_from(number(length)).ok()?)
}

fn read_body(body: &[u8], place: usize, heap: Global) -> Result<Outline, Stop> {
    let bad_length = told(Layer::Record, 21, place);
    let (kind, mut rest) = body.split_first().ok_or(bad_length)?;
    let widths = widths_of(*kind).ok_or(told(Layer::Record, 22, place))?;
    let mut fields = [0; 8];
    for (field, width) in fields.iter_mut().zip(widths) {
        let (bytes, after) = rest.split_at_checked(*width).ok_or(bad_length)?;
        *field = number(bytes);
        rest = after;
    }
    if rest.len() > 64 {
        return Err(Stop::Fault(bad_length));
    }
    if rest.iter().any(|byte| *byte < 33 || *byte > 126) {
        return Err(Stop::Fault(told(Layer::Memo, 24, place)));
    }
    let read = body.len().wrapping_sub(rest.len());
    let memo_place = place.wrapping_add(2).wrapping_add(read);
    Ok(Outline::new(*kind, fields, rest, memo_place, heap)?)
}

/// The number that the bytes write, the high one first.
fn number(bytes: &[u8]) -> u64 {
    bytes.iter().fold(0, |value: u64, byte| {
        value.wrapping_mul(256).wrapping_add(u64::from(*byte))
    })
}

fn told(layer: Layer, number: u8, place: usize) -> Told {
    Told {
        layer,
        number,
        place,
    }
}

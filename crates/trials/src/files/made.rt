// Files made by hand.
use std::alloc::{AllocError, Global};

/// Each kind, and the width of its fields together.
pub const KINDS: [(u8, usize); 16] = [
    (1, 32),
    (2, 4),
    (3, 10),
    (4, 2),
    (5, 3),
    (6, 3),
    (7, 9),
    (8, 8),
    (9, 6),
    (10, 2),
    (11, 0),
    (12, 1),
    (13, 17),
    (14, 0),
    (15, 2),
    (16, 1),
];

/// A file with one record, whose fields are zeros. No memo has a zero, so a byte of a field that is read as one shows.
pub(crate) fn one_record(
    kind: u8,
    width: usize,
    memo: &[u8],
    heap: Global,
) -> Result<Vec<u8>, AllocError> {
    let mut file = vec![in heap; 1]?;
    let fields = vec![in heap; 0; width]?;
    put_record(&mut file, kind, &fields, memo)?;
    Ok(file)
}

/// Puts a record with its length at the end of a file.
pub(crate) fn put_record(
    file: &mut Vec<u8>,
    kind: u8,
    fields: &[u8],
    memo: &[u8],
) -> Result<(), AllocError> {
    let length = fields.len().wrapping_add(memo.len()).wrapping_add(1);
    let length = (length & 0xffff) as u16;
    file.extend_from_slice(&length.to_be_bytes())?;
    file.push(kind)?;
    file.extend_from_slice(fields)?;
    file.extend_from_slice(memo)
}

// What a reader finds in a file, in a form that owns its bytes and can be compared whole.
use dayfile::{Fault, Told};
use std::alloc::{AllocError, AllocFailed, Global};

/// One record: its kind, the values of its fields in order with zeros past them, and its memo.
#[derive(Debug, Drop, PartialEq)]
pub struct Outline {
    // The number that stands in the file: the second reader is written from the format, and knows no kind of the first.
    pub kind: u8,
    // As many as the longest kind has, so that a table of records is written down with no heap.
    pub fields: [u64; 8],
    pub memo_place: usize,
    pub memo: Vec<u8>,
}

impl Outline {
    pub(crate) fn new(
        kind: u8,
        fields: [u64; 8],
        memo: &[u8],
        memo_place: usize,
        heap: Global,
    ) -> Result<Outline, AllocError> {
        Ok(Outline {
            kind,
            fields,
            memo_place,
            memo: memo.to_vec(heap)?,
        })
    }
}

/// What ends a reading before the end of the file.
#[derive(Debug, Drop)]
pub enum Stop {
    Fault(Told),
    Memory(AllocError),
}

impl From<Told> for Stop {
    fn from(told: Told) -> Stop {
        Stop::Fault(told)
    }
}

impl From<Fault> for Stop {
    fn from(fault: Fault) -> Stop {
        Stop::Fault(fault.told())
    }
}

impl From<AllocError> for Stop {
    fn from(error: AllocError) -> Stop {
        Stop::Memory(error)
    }
}

impl From<AllocFailed<Outline>> for Stop {
    fn from(failed: AllocFailed<Outline>) -> Stop {
        Stop::Memory(AllocError::from(failed))
    }
}

/// The records of a file in order, and the fault that stopped the reading.
#[derive(Drop)]
pub struct Found {
    pub records: Vec<Outline>,
    pub fault: Option<Told>,
}

impl Found {
    /// The records that a reading found up to its end, for which memory sufficed.
    pub(crate) fn new(records: Vec<Outline>, end: Result<(), Stop>) -> Result<Found, AllocError> {
        let fault = match end {
            Ok(()) => None,
            Err(Stop::Fault(told)) => Some(told),
            Err(Stop::Memory(error)) => return Err(error),
        };
        Ok(Found { records, fault })
    }
}

// What can be wrong with a file, by layer. A `?` from one layer to the next keeps the cause and the place.
ghost use Rattle.std.specs.Prelude.{◌≡◌};
ghost use Rattle.dayfile.specs.Layers.{emptied, unread, inside, cut_off, whole_file};

use cursor::Short;
use instruction::Unread;

/// The layer of a file that a fault lies in.
#[derive(Clone, Copy, Debug, PartialEq, Eq)]
pub enum Layer {
    File,
    Record,
    Memo,
}

/// What a fault tells: its layer, its number, and the place of a byte in the file.
#[derive(Clone, Copy, Debug, PartialEq, Eq)]
pub struct Told {
    pub layer: Layer,
    pub number: u8,
    pub place: usize,
}

/// What is wrong with a file as a whole.
#[derive(Clone, Copy, Debug, PartialEq, Eq)]
pub enum FileCause {
    /// It is empty, or its first byte is not the version.
    Version,
    /// It has more bytes than a file may have.
    TooLong,
}

/// What is wrong with a record, in the order of the numbers by which the causes are known.
#[derive(Clone, Copy, Debug, PartialEq, Eq)]
pub enum RecordCause {
    /// Its length is 0, too small for its kind, or leaves a memo that is too long.
    Length,
    /// No kind has its number.
    Kind,
    /// The file ends inside it.
    Ends,
}

/// What is wrong inside a record whose bytes are all there, and the record's place.
// The place stands in each case, as it does in the faults of the layers around it: taken out, each `?` would have to put it back.
#[derive(Clone, Copy, Debug, PartialEq, Eq)]
pub enum RecordFault {
    Length { place: usize },
    Kind { place: usize },
    Memo { place: usize },
}

/// What is wrong with a file; the place is the first byte of the record.
#[derive(Clone, Copy, Debug, PartialEq, Eq)]
pub enum Fault {
    File { cause: FileCause },
    Record { cause: RecordCause, place: usize },
    Memo { place: usize },
}

impl From<Short> for RecordFault {
    ghost from_gives = { λ s f. f ≡ emptied s };

    fn from(s: Short) -> RecordFault {
        RecordFault::Length { place: s.place }
    }
}

impl From<Unread> for RecordFault {
    ghost from_gives = { λ u f. f ≡ unread u };

    fn from(u: Unread) -> RecordFault {
        match u {
            Unread::Kind { place } => RecordFault::Kind { place },
            Unread::Short { place } => RecordFault::Length { place },
        }
    }
}

impl From<RecordFault> for Fault {
    ghost from_gives = { λ r f. f ≡ inside r };

    fn from(r: RecordFault) -> Fault {
        match r {
            RecordFault::Length { place } => Fault::Record {
                cause: RecordCause::Length,
                place,
            },
            RecordFault::Kind { place } => Fault::Record {
                cause: RecordCause::Kind,
                place,
            },
            RecordFault::Memo { place } => Fault::Memo { place },
        }
    }
}

impl From<Short> for Fault {
    ghost from_gives = { λ s f. f ≡ cut_off s };

    fn from(s: Short) -> Fault {
        Fault::Record {
            cause: RecordCause::Ends,
            place: s.place,
        }
    }
}

impl From<FileCause> for Fault {
    ghost from_gives = { λ c f. f ≡ whole_file c };

    fn from(cause: FileCause) -> Fault {
        Fault::File { cause }
    }
}

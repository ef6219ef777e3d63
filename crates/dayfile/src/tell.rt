// What a fault tells, and in words what was expected.
ghost use Rattle.std.specs.Prelude.{◌≡◌, Some};
ghost use Rattle.dayfile.specs.Faults.{tells, expects, file_expects, record_expects};
ghost use Rattle.dayfile.specs.Shown.{layer_name, fault_text};

use super::fault::{Fault, FileCause, Layer, RecordCause, Told};
use super::file::MOST;
use std::error::Error;
use std::fmt;

impl Fault {
    /// Layer, number and place.
    pub fn told(&self) -> Told
        ensures { result ≡ tells self.now }
    {
        match *self {
            Fault::File { cause } => {
                let (number, place) = match cause {
                    FileCause::Version => (20, 0),
                    FileCause::TooLong => (25, MOST),
                };
                Told {
                    layer: Layer::File,
                    number,
                    place,
                }
            },
            Fault::Record { cause, place } => Told {
                layer: Layer::Record,
                number: 21 + cause as u8,
                place,
            },
            Fault::Memo { place } => Told {
                layer: Layer::Memo,
                number: 24,
                place,
            },
        }
    }

    /// What was expected there, in words.
    pub fn expected(&self) -> &'static str
        ensures { result.now ≡ expects self.now }
    {
        match self {
            Fault::File { cause } => cause.expected(),
            Fault::Record { cause, .. } => cause.expected(),
            Fault::Memo { .. } => "expected memo bytes from 33 to 126",
        }
    }
}

impl fmt::Display for Layer {
    ghost output = { λ layer. Some (layer_name layer) };

    fn fmt<W: fmt::Write>(&self, f: &mut fmt::Formatter<W>) -> fmt::Result {
        f.write_str(match self {
            Layer::File => "file",
            Layer::Record => "record",
            Layer::Memo => "memo",
        })
    }
}

impl fmt::Display for Fault {
    ghost output = { λ fault. Some (fault_text fault) };

    fn fmt<W: fmt::Write>(&self, f: &mut fmt::Formatter<W>) -> fmt::Result {
        let Told {
            layer,
            number,
            place,
        } = self.told();
        let expected = self.expected();
        write!(f, "{layer} {number} at {place} {expected}")
    }
}

impl Error for Fault {}

impl FileCause {
    fn expected(self) -> &'static str
        ensures { result.now ≡ file_expects self }
    {
        match self {
            FileCause::Version => "expected a first byte of 1, the version",
            FileCause::TooLong => "expected at most 65536 bytes",
        }
    }
}

impl RecordCause {
    fn expected(self) -> &'static str
        ensures { result.now ≡ record_expects self }
    {
        match self {
            RecordCause::Length =>
                "expected a length that holds a kind, its fields and a memo of 0 to 64 bytes",
            RecordCause::Kind => "expected a kind from 1 to 16",
            RecordCause::Ends => "expected the rest of the record before the end of the file",
        }
    }
}

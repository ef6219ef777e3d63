// A whole file.
ghost use Rattle.std.specs.Prelude.{◌≡◌};
ghost use Rattle.dayfile.specs.Outcome.{Reading};
ghost use Rattle.dayfile.specs.Seen.{reading};
ghost use Rattle.dayfile.specs.File.{Begins, Opened, Handed, OneMeaning};

use super::fault::{Fault, FileCause};
use super::reader::Reader;
use super::record::Record;

/// The most bytes that a file has.
pub(crate) const MOST: usize = 65_536;
/// The first byte of a file.
const VERSION: u8 = 1;

impl<'a> Reader<'a> {
    /// A reader at the first record of a file that is not too long and has the version.
    #[tactic(auto, using(crate::proofs::Files::not_begun))]
    pub fn open(file: &'a [u8]) -> Result<Reader<'a>, Fault>
        ensures { Opened result file.now }
    {
        begins(file)?;
        Ok(Reader { file, at: 1 })
    }
}

fn begins(file: &[u8]) -> Result<(), FileCause>
    ensures { Begins result file.now }
{
    if file.len() > MOST {
        return Err(FileCause::TooLong);
    }
    if file.first() != Some(&VERSION) {
        return Err(FileCause::Version);
    }
    Ok(())
}

/// What takes the records of a file, one after the other.
pub trait Sink {
    /// What taking a record does.
    ghost takes: { Self → Reading → Self → Type 0 };

    fn take(&mut self, record: Record<'_>)
        ensures { takes self.old (reading «record».entry) self.new };
}

/// Hands each record of the file to the sink, in order, up to the end of the file or its first fault.
#[tactic(auto, using(crate::proofs::Meaning::one_meaning))]
pub fn read_file<S: Sink>(file: &[u8], sink: &mut S) -> Result<(), Fault>
    ensures handed { Handed S.Sink.takes file.now sink.old result sink.new }
    ensures only { OneMeaning file.now }
{
    let mut reader = Reader::open(file)?;
    while let Some(record) = reader.next_record()? {
        sink.take(record);
    }
    Ok(())
}

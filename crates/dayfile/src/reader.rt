// The records of a file, one by one.
ghost use Rattle.std.specs.Prelude.{◌≡◌};
ghost use Rattle.dayfile.specs.Outcome.{read_record};
ghost use Rattle.dayfile.specs.Seen.{seen, Stands};

use super::fault::Fault;
use super::record::{Record, read_record};
use cursor::Cursor;

/// A lent file and the place `at` of the next record in it.
#[derive(Drop)]
pub struct Reader<'a> {
    pub file: &'a [u8],
    pub at: usize,
}

impl<'a> Reader<'a> {
    /// The record at the reader, which then stands past it; `None` at the end of the file. At a fault it stays.
    #[tactic(auto, using(std::proofs::lemmas::Bool::Decides::nat_tests))]
    pub fn next_record(&mut self) -> Result<Option<Record<'a>>, Fault>
        ensures reads { seen result self.new.at ≡ read_record self.old.file.now self.old.at }
        ensures stands { Stands result self.old self.new }
    {
        let file = self.file;
        let place = self.at;
        if file.len() <= place {
            return Ok(None);
        }
        let mut ahead = Cursor {
            bytes: file,
            at: place,
            start: place,
        };
        let length: u16 = ahead.take()?;
        let bytes = ahead.take_part(usize::from(length))?;
        let record = read_record(bytes, place)?;
        self.at = ahead.at;
        Ok(Some(record))
    }
}

// One record, from the bytes that follow its length.
ghost use Rattle.std.specs.Prelude.{◌≡◌, ◌+◌, ◌^◌, ◌<◌, length};
ghost use Rattle.dayfile.specs.Outcome.{all_plain, read_body};
ghost use Rattle.dayfile.specs.Seen.{seen_body};

use super::fault::RecordFault;
use cursor::Cursor;
use instruction::{Instruction, read_instruction};

/// The most bytes that a memo has.
const MEMO_MOST: usize = 64;
/// The lowest and the highest byte of a memo.
const MEMO_LOW: u8 = 33;

const MEMO_HIGH: u8 = 126;

/// The sender's mark: a part of the file, and the place where it begins in it.
#[derive(Clone, Copy, Debug, PartialEq, Eq)]
pub struct Memo<'a> {
    pub bytes: &'a [u8],
    pub place: usize,
}

/// An instruction with its memo.
#[derive(Clone, Copy, Debug, PartialEq, Eq)]
pub struct Record<'a> {
    pub instruction: Instruction<'a>,
    pub memo: Memo<'a>,
}

/// The record whose first byte, of its length, is at `place`, and whose later bytes are `bytes`.
#[tactic(auto, using(std::proofs::lemmas::Bool::Decides::nat_tests))]
pub(crate) fn read_record<'a>(bytes: &'a [u8], place: usize) -> Result<Record<'a>, RecordFault>
    requires { place + 2 + length bytes.now < 2 ^ 64 }
    ensures { seen_body result (place + 2 + length bytes.now) ≡ read_body bytes.now place }
{
    let mut c = Cursor::new(bytes, place);
    let kind = c.take()?;
    let instruction = read_instruction(kind, &mut c)?;
    let memo = Memo {
        bytes: c.rest(),
        place: place + 2 + c.at,
    };
    if memo.bytes.len() > MEMO_MOST {
        return Err(RecordFault::Length { place });
    }
    if !plain(memo.bytes) {
        return Err(RecordFault::Memo { place });
    }
    Ok(Record { instruction, memo })
}

fn plain(memo: &[u8]) -> bool
    ensures { result ≡ all_plain memo.now }
{
    memo.iter()
        .all(|byte| (MEMO_LOW..=MEMO_HIGH).contains(byte))
}

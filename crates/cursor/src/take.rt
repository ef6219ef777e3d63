// Each call takes the field at the cursor and goes past it, or answers `Short` and stays.
ghost use Rattle.std.specs.Prelude.{◌≡◌, ◌+◌, length, drop};
ghost use Rattle.cursor.specs.Bytes.{part};
ghost use Rattle.cursor.specs.Took.{Took};

use super::cursor::{Cursor, Short};
use super::number::Number;

impl<'a> Cursor<'a> {
    /// A cursor at the first of the bytes.
    pub fn new(bytes: &'a [u8], start: usize) -> Cursor<'a>
        ensures bytes { result.bytes.now ≡ bytes.now }
        ensures at { result.at ≡ 0 }
        ensures start { result.start ≡ start }
    {
        Cursor {
            bytes,
            at: 0,
            start,
        }
    }

    /// A number, in as many bytes as its type has.
    pub fn take<N: Number>(&mut self) -> Result<N, Short>
        ensures { Took N.WIDTH (λ v. v ≡ N.read self.old.bytes.now self.old.at) self.old result self.new }
    {
        let bytes = self.take_part(N::WIDTH)?;
        Ok(N::from_bytes(bytes))
    }

    /// The next `n` bytes, as a part of the lent ones.
    pub fn take_part(&mut self, n: usize) -> Result<&'a [u8], Short>
        ensures { Took n (λ v. (v.now ≡ part self.old.bytes.now self.old.at n) × (length v.now ≡ n)) self.old result self.new }
    {
        let taken = self.rest().get(..n).ok_or(Short { place: self.start })?;
        self.at += n;
        Ok(taken)
    }

    /// All the bytes that are left, as a part of the lent ones.
    pub fn rest(&self) -> &'a [u8]
        ensures value { result.now ≡ drop self.now.at self.now.bytes.now }
        ensures len { length result.now + self.now.at ≡ length self.now.bytes.now }
    {
        &self.bytes[self.at..]
    }
}

ghost use Rattle.std.specs.Prelude.{◌≡◌};
ghost use Rattle.instruction.specs.Unread.{Instructs};

use super::fields::read_fields;
use super::instruction::Instruction;
use super::kind::Kind;
use super::unread::Unread;
use cursor::Cursor;

/// The instruction of a kind, whose fields begin at the cursor.
pub fn read_instruction<'a>(kind: u8, c: &mut Cursor<'a>) -> Result<Instruction<'a>, Unread>
    ensures { Instructs kind c.old result c.new }
{
    let kind = Kind::try_from(kind).map_err(|_| Unread::Kind { place: c.start })?;
    read_fields(kind, c)
}

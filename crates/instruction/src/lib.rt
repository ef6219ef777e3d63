//! What a record of a day file tells to do, and how it is read from the fields of its kind.
#![tactic(auto)]

mod fields;
mod instruction;
mod kind;
mod prices;
mod read;
mod unread;

pub use instruction::Instruction;
pub use kind::{Kind, UnknownKind};
pub use prices::read_prices;
pub use read::read_instruction;
pub use unread::Unread;

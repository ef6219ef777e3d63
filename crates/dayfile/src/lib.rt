//! The day file: bytes to records, one by one or all of them, or the place and cause of the first fault.
#![tactic(auto)]

mod fault;
mod file;
mod reader;
mod record;
mod tell;

pub use fault::{Fault, FileCause, Layer, RecordCause, RecordFault, Told};
pub use file::{Sink, read_file};
pub use instruction::{Instruction, Kind, read_prices};
pub use reader::Reader;
pub use record::{Memo, Record};

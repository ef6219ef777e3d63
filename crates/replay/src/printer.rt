// What is printed: a line for each record, one for a fault, and one with the number of records.
ghost use Rattle.std.specs.Prelude.{◌≡◌, ◌+◌, ◌-◌, ◌^◌, ◌<◌, IfErr};
ghost use Rattle.std.specs.IoError.{error_kind};

use super::fields::Fields;
use dayfile::{Fault, Record, Sink};
use std::io;
use std::io::{BufWriter, ErrorKind, Stdout, Write};

/// A sink that prints the records. The first failure to print is kept, and nothing is printed after it.
#[derive(Drop)]
pub struct Printer {
    out: BufWriter<Stdout>,
    records: u64,
    printed: io::Result<()>,
}

impl Printer {
    /// Fails only where there is no memory for what is printed.
    pub fn new(rt: &HostRuntime) -> io::Result<Printer>
        ensures { IfErr result (λ e. error_kind e ≡ ErrorKind.OutOfMemory) }
    {
        Ok(Printer {
            out: BufWriter::new(rt.alloc(), rt.stdout())?,
            records: 0,
            printed: Ok(()),
        })
    }

    pub fn print_fault(&mut self, fault: &Fault) {
        if self.printed.is_ok() {
            self.printed = writeln!(self.out, "fault {fault}");
        }
    }

    /// The last line; answers the first failure to print, if there was one.
    pub fn finish(self) -> io::Result<()> {
        let Printer {
            mut out,
            records,
            printed,
        } = self;
        printed?;
        let noun = if records == 1 { "record" } else { "records" };
        writeln!(out, "{records} {noun} read")?;
        out.flush()
    }
}

impl Sink for Printer {
    // Each record is counted; a file has fewer than the count can hold.
    ghost takes = { λ s r t. (s.records < 2 ^ 64 - 1 → t.records ≡ s.records + 1) };

    fn take(&mut self, record: Record<'_>) {
        self.records = self.records.saturating_add(1);
        if self.printed.is_ok() {
            self.printed = print_record(&mut self.out, self.records, &record);
        }
    }
}

fn print_record(out: &mut BufWriter<Stdout>, number: u64, record: &Record<'_>) -> io::Result<()> {
    let kind = record.instruction.kind();
    let fields = Fields(&record.instruction);
    write!(out, "{number} {kind} ")?;
    // A memo is a part of the file, and not text, so it is written as it stands there.
    if record.memo.bytes.is_empty() {
        out.write_all(b"-")?;
    } else {
        out.write_all(record.memo.bytes)?;
    }
    writeln!(out, "{fields}")
}

//! Reads a day file from standard input and prints what each record says, or where and why the file is faulty.
#![tactic(auto)]

mod fields;
mod printer;

use anyhow::anyhow;
use dayfile::{Sink, read_file};
use printer::Printer;
use std::io;
use std::io::Read;

/// One byte more than a file may have: enough to tell that it is too long.
const ENOUGH: u64 = 65_537;

fn read_input(rt: &HostRuntime) -> io::Result<Vec<u8>> {
    let mut file = Vec::new(rt.alloc());
    rt.stdin().take(ENOUGH).read_to_end(&mut file)?;
    Ok(file)
}

fn run(rt: &HostRuntime) -> anyhow::Result<()> {
    let file = read_input(rt)?;
    let mut printer = Printer::new(rt)?;
    let read = read_file(file.as_slice(), &mut printer);
    if let Err(fault) = &read {
        printer.print_fault(fault);
    }
    printer.finish()?;
    read.map_err(|_| anyhow!("the file is faulty"))
}

// A faulty file, or a failure to read or print, ends the program with status 1.
fn main(rt: HostRuntime) -> anyhow::Result<()> {
    run(&rt)
}

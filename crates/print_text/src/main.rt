//! Prints the text on standard input as `slang_print` lays it out, without its comments.
//!
//! A text that cannot be read is told on standard error by the code and place of its first fault, with status 1.
#![tactic(auto)]

use anyhow::bail;
use lk_io::StdSink;
use slang_print::print_file;
use std::io::Read;
use std::thread::Builder;
use text_parser::{ParseEnd, parse};

/// The stack on which the text is walked, in bytes. A tree of a text can be 20,000 nodes high.
const STACK: usize = 1 << 28;

fn main(rt: HostRuntime) -> anyhow::Result<()> {
    Builder::new()
        .stack_size(STACK)
        .spawn(&rt, move || print(rt))?
        .join(&rt)
}

/// Prints what stands on standard input.
fn print(rt: HostRuntime) -> anyhow::Result<()> {
    let alloc = rt.alloc();
    let mut text = Vec::new(alloc);
    rt.stdin().read_to_end(&mut text)?;
    match parse(alloc, &text) {
        Ok(file) => Ok(print_file(alloc, &file, &mut StdSink::new(rt.stdout()))?),
        Err(ParseEnd::Fault(fault)) => bail!(
            "{}:{}: fault {}",
            fault.place.line,
            fault.place.col,
            fault.code
        ),
        Err(ParseEnd::NoMemory) => bail!("no memory"),
    }
}

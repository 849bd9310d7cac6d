//! How long the parsing of a generated text takes, beside that of a tenth of it.
//!
//! The argument is how many methods the text has. Standard error has the figures.
#![tactic(auto)]

use anyhow::{Context, bail};
use std::alloc::{AllocError, Global};
use std::env;
use std::rt::Clock;
use std::time::Instant;
use text_parser::{ParseEnd, parse};

/// How often each text is read. The shortest time counts.
const ROUNDS: u32 = 5;

/// The claims of a method: the first of four requires something, and so does the second.
fn claims(alloc: Global, index: u32) -> Result<String, AllocError> {
    match index % 4 {
        0 | 1 => {
            format!(in alloc; "    Requires(x >= {index}),\n    Ensures(Res == x + {index})\n")
        }
        2 => format!(in alloc; "    Ensures(Res >= {index})\n"),
        _ => format!(in alloc; "    Ensures(Res > x + {index})\n"),
    }
}

/// The statements of a method: the second of four calls the first, and the third has a branch.
fn statements(alloc: Global, index: u32) -> Result<String, AllocError> {
    match index % 4 {
        1 => {
            let before = index.saturating_sub(1);
            format!(in alloc; "  val y: Z = m{before}(x)\n  return y + 1\n")
        }
        2 => {
            format!(in alloc;
                "  var y: Z = x\n  if (y < {index}) {{\n    y = {index}\n  }}\n  return y\n"
            )
        }
        _ => format!(in alloc; "  return x + {index}\n"),
    }
}

/// A text of so many methods.
fn generated(alloc: Global, methods: u32) -> Result<String, AllocError> {
    let mut text = format!(in alloc; "// #Sireum #Logika\nimport org.sireum._\n")?;
    for index in 0..methods {
        let head = format!(in alloc; "def m{index}(x: Z): Z = {{\n  Contract(\n")?;
        text.push_str(&head)?;
        text.push_str(&claims(alloc, index)?)?;
        text.push_str("  )\n")?;
        text.push_str(&statements(alloc, index)?)?;
        text.push_str("}\n")?;
    }
    Ok(text)
}

/// The time, in microseconds, that counting the characters of a text takes.
fn counting(rt: &impl Clock, text: &str) -> anyhow::Result<u64> {
    let start = Instant::now(rt)?;
    let count = count(text);
    let time = micros(rt, start)?;
    if count > text.len() {
        bail!("there are more characters than bytes");
    }
    Ok(time)
}

/// The time, in microseconds, that parsing a text takes, and letting go of its tree.
fn parsing(rt: &impl Clock, alloc: Global, text: &str) -> anyhow::Result<u64> {
    let start = Instant::now(rt)?;
    let end = parse(alloc, text.as_bytes()).err();
    let time = micros(rt, start)?;
    match end {
        None => Ok(time),
        Some(ParseEnd::Fault(fault)) => {
            bail!("fault {} in line {}", fault.code, fault.place.line)
        }
        Some(ParseEnd::NoMemory) => bail!("no memory"),
    }
}

/// The shortest times of counting the characters of a text, and of parsing it.
fn times(rt: &impl Clock, alloc: Global, text: &str) -> anyhow::Result<(u64, u64)> {
    let mut counted = u64::MAX;
    let mut parsed = u64::MAX;
    for _ in 0..ROUNDS {
        counted = counted.min(counting(rt, text)?);
        parsed = parsed.min(parsing(rt, alloc, text)?);
    }
    Ok((counted, parsed))
}

/// How many characters a text has, counted in one loop.
fn count(text: &str) -> usize {
    let mut count: usize = 0;
    for (_, _) in text.char_indices() {
        count = count.saturating_add(1);
    }
    count
}

fn micros(rt: &impl Clock, start: Instant) -> anyhow::Result<u64> {
    Ok(u64::try_from(start.elapsed(rt)?.as_micros()).unwrap_or(u64::MAX))
}

fn main(rt: HostRuntime) -> anyhow::Result<()> {
    let alloc = rt.alloc();
    let words: Vec<String> = env::args(&rt)?.skip(1).collect(alloc)?;
    let methods = words.first().context("how many methods?")?;
    let methods: u32 = methods
        .as_str()
        .parse::<u32>()
        .ok()
        .context("how many methods?")?;
    let whole = generated(alloc, methods)?;
    let tenth = generated(alloc, methods / 10)?;
    let (counted, parsed) = times(&rt, alloc, &whole)?;
    let (_, parsed_tenth) = times(&rt, alloc, &tenth)?;
    eprintln!(rt;
        "{methods} methods, {} bytes: parsed in {parsed} us",
        whole.len()
    )?;
    eprintln!(rt;
        "  a tenth of them, {} bytes: {parsed_tenth} us",
        tenth.len()
    )?;
    eprintln!(rt; "  the characters are counted in {counted} us")?;
    Ok(())
}

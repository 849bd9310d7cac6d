//! The program `logika`: standard input is the source, standard output the output and standard error the journal, files
//! are those of the system, and the exit code is the status.
#![tactic(auto)]

use lk_io::{OsFolder, StdSink, StdSource};
use logika_cli::{end_without_memory, logika_main};
use std::io::ErrorKind;
use std::process::ExitCode;
use std::rt::Env;
use std::thread::Builder;
use std::{env, io};

/// The stack on which the command runs, in bytes. A tree of a text can be 20,000 nodes high, and functions walk it part by
/// part.
const STACK: usize = 1 << 28;

fn main(rt: HostRuntime) -> ExitCode {
    let code = match Builder::new()
        .stack_size(STACK)
        .spawn(&rt, move || command(rt))
    {
        Ok(thread) => thread.join(&rt),
        // No thread can be made, so the command runs on this one.
        Err(_) => command(rt),
    };
    ExitCode::from(code)
}

/// Runs the command, and answers its status.
fn command(rt: HostRuntime) -> u8 {
    let alloc = rt.alloc();
    let mut source = StdSource::new(rt.stdin());
    let mut out = StdSink::new(rt.stdout());
    let mut journal = StdSink::new(rt.stderr());
    let mut folder = OsFolder::new(&rt);
    let status = match words(&rt) {
        Ok(words) => logika_main(
            &rt,
            alloc,
            &words,
            &mut source,
            &mut out,
            &mut journal,
            &mut folder,
        ),
        // A word that is no text is among no words that are read.
        Err(e) if e.kind() == ErrorKind::InvalidData => {
            logika_main(
                &rt,
                alloc,
                &[],
                &mut source,
                &mut out,
                &mut journal,
                &mut folder,
            )
        }
        Err(_) => end_without_memory(&mut journal),
    };
    status.code
}

/// The words of the command line, without the program's name.
fn words<R: Env + AllocGlobal>(rt: &R) -> io::Result<Vec<String>> {
    let words = env::args(rt)?.skip(1).collect(rt.alloc())?;
    Ok(words)
}

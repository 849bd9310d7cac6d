//! How many rows a second `solve` eliminates.
//!
//! The argument is how many lists of seeded rows of each kind are eliminated. Standard error has the figures.
#![tactic(auto)]

use anyhow::{Context, bail};
use lin_cert::accepts;
use lin_rows::{Row, RowPart, is_canonical};
use lin_solve::{SolveEnd, Solved, are_within, solve};
use std::alloc::Global;
use std::env;
use std::rt::Clock;
use std::time::Instant;

/// A kind of list: how many rows it has, of how many variables, and how many of a hundred of these a row has.
#[derive(Clone, Copy)]
struct Kind {
    rows: u32,
    variables: u32,
    share: u64,
}

const KINDS: [Kind; 6] = [
    Kind {
        rows: 10,
        variables: 5,
        share: 60,
    },
    Kind {
        rows: 25,
        variables: 20,
        share: 15,
    },
    Kind {
        rows: 35,
        variables: 20,
        share: 10,
    },
    Kind {
        rows: 80,
        variables: 60,
        share: 4,
    },
    Kind {
        rows: 100,
        variables: 60,
        share: 4,
    },
    Kind {
        rows: 120,
        variables: 60,
        share: 3,
    },
];

/// Numbers that look random, and are the same in each run.
#[derive(Drop)]
struct Numbers {
    last: u64,
}

impl Numbers {
    fn next(&mut self) -> u64 {
        self.last = self.last % 2147483647 * 48271 % 2147483647;
        self.last
    }

    /// A coefficient from -2 to 2, and not 0.
    fn coefficient(&mut self) -> i128 {
        match self.next() % 4 {
            0 => -2,
            1 => -1,
            2 => 1,
            _ => 2,
        }
    }

    /// A bound from -8 to 21.
    fn bound(&mut self) -> i128 {
        (self.next() % 30) as i128 - 8
    }

    fn row(&mut self, alloc: Global, kind: Kind) -> anyhow::Result<Row> {
        let mut parts = Vec::new(alloc);
        for var in 0..kind.variables {
            if self.next() % 100 < kind.share {
                let times = self.coefficient();
                parts.push(RowPart { var, times })?;
            }
        }
        if !is_canonical(&parts) {
            bail!("these parts are those of no row");
        }
        Ok(Row::new(parts, self.bound()))
    }

    fn rows(&mut self, alloc: Global, kind: Kind) -> anyhow::Result<Vec<Row>> {
        let mut rows = Vec::new(alloc);
        for _ in 0..kind.rows {
            rows.push(self.row(alloc, kind)?)?;
        }
        Ok(rows)
    }
}

/// What the eliminations of a kind came to.
#[derive(Default, Drop)]
struct Tally {
    closed: u64,
    open: u64,
    many: u64,
    wide: u64,
    lines: u64,
    solving: u64,
    accepting: u64,
}

impl Tally {
    /// Eliminates the variables of the rows, and checks the certificate.
    fn run(&mut self, rt: &impl Clock, alloc: Global, rows: &[Row]) -> anyhow::Result<()> {
        if !are_within(rows) {
            bail!("a number is too large");
        }
        let start = Instant::now(rt)?;
        let solved = solve(alloc, rows);
        self.solving = self.solving.saturating_add(micros(rt, start)?);
        match solved {
            Ok(Solved::Closed(certificate)) => {
                let start = Instant::now(rt)?;
                if !accepts(rows, &certificate) {
                    bail!("a certificate is refused");
                }
                self.accepting = self.accepting.saturating_add(micros(rt, start)?);
                self.closed = self.closed.saturating_add(1);
                self.lines = self.lines.saturating_add(certificate.lines.len() as u64);
            }
            Ok(Solved::Open) => self.open = self.open.saturating_add(1),
            Err(SolveEnd::Rows) => self.many = self.many.saturating_add(1),
            Err(SolveEnd::Wide) => self.wide = self.wide.saturating_add(1),
            Err(SolveEnd::NoMemory) => bail!("no memory"),
        }
        Ok(())
    }
}

fn micros(rt: &impl Clock, start: Instant) -> anyhow::Result<u64> {
    Ok(u64::try_from(start.elapsed(rt)?.as_micros()).unwrap_or(u64::MAX))
}

fn main(rt: HostRuntime) -> anyhow::Result<()> {
    let alloc = rt.alloc();
    let words: Vec<String> = env::args(&rt)?.skip(1).collect(alloc)?;
    let times = words.first().context("how many lists?")?;
    let times: u32 = times
        .as_str()
        .parse::<u32>()
        .ok()
        .context("how many lists?")?;
    let mut numbers = Numbers { last: 12345 };
    for kind in &KINDS {
        let mut tally = Tally::default();
        for _ in 0..times {
            let rows = numbers.rows(alloc, *kind)?;
            tally.run(&rt, alloc, &rows)?;
        }
        let all = u64::from(times) * u64::from(kind.rows);
        let rate = u128::from(all) * 1000000 / u128::from(tally.solving.max(1));
        eprintln!(rt;
            "{} rows of {} variables: {rate} rows a second",
            kind.rows, kind.variables
        )?;
        eprintln!(rt;
            "  closed {} open {} rows {} wide {}; {} lines, checked in {} us",
            tally.closed, tally.open, tally.many, tally.wide, tally.lines, tally.accepting
        )?;
    }
    Ok(())
}

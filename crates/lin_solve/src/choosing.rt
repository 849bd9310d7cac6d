//! The choice of the variable that is eliminated next.

ghost use Rattle.std.specs.Prelude.{◌≡◌, ◌<◌, ◌≤◌, ℕ, nat_eq, IfOk, OnOk, length, fold, None, option_map, if◌then◌else◌, ◌==◌};
ghost use Rattle.elimination.specs.Elimination as elimination;
ghost use Rattle.lin_rows.specs.Sum.{coefficient};
ghost use Rattle.lin_solve.specs.Choice as choice;
ghost use Rattle.lin_solve.specs.Choice.{count_at, count_of, counted};
ghost use Rattle.lin_solve.specs.Lines.{AreLines, rows_of};
ghost use Rattle.std.specs.HashMap.{IsUnique};

use lin_cert::CertLine;
use lin_rows::{Row, RowPart};
use std::alloc::{AllocError, Global};
use std::collections::HashMap;

/// How many rows have a coefficient below 0, and above 0, of a variable.
#[derive(Clone, Copy)]
struct Count {
    lower: u32,
    upper: u32,
}

/// A variable that rows have, and how many combinations would take their place.
#[derive(Clone, Copy)]
struct Candidate {
    variable: u32,
    cost: u64,
}

/// The variable with the least product of the number of its lower rows and that of its upper rows; of several the least.
pub fn choose(alloc: Global, lines: &[CertLine], kept: &[u32]) -> Result<Option<u32>, AllocError>
    requires lines { AreLines lines.now kept.now }
    requires few { length kept.now ≤ 2000 }
    ensures { IfOk result (λ v. v ≡ elimination.chosen (rows_of lines.now kept.now)) }
{
    let counts = count_all(alloc, lines, kept)?;
    Ok(first_of(&counts))
}

/// The first to go of the variables of a table.
fn first_of(counts: &HashMap<u32, Count>) -> Option<u32>
    ensures first { result ≡ choice.first_of counts.now.entries }
    ensures unique { IsUnique nat_eq counts.now }
{
    let mut best = None;
    for (variable, count) in counts {
        best = next_best(best, *variable, *count);
    }
    match best {
        Some(found) => Some(found.variable),
        None => None,
    }
}

/// The first to go of the best before and one more variable.
fn next_best(best: Option<Candidate>, variable: u32, count: Count) -> Option<Candidate>
    ensures { result ≡ choice.with_next best variable count }
{
    if count.lower == 0 && count.upper == 0 {
        return best;
    }
    let cost = u64::from(count.lower) * u64::from(count.upper);
    earlier(best, Candidate { variable, cost })
}

fn earlier(best: Option<Candidate>, next: Candidate) -> Option<Candidate>
    ensures { result ≡ choice.earlier_of best next }
{
    match best {
        None => Some(next),
        Some(old) => {
            if goes_before(next, old) {
                Some(next)
            } else {
                Some(old)
            }
        }
    }
}

fn goes_before(v: Candidate, w: Candidate) -> bool
    ensures { result ≡ choice.goes_before v w }
{
    v.cost < w.cost || (v.cost == w.cost && v.variable < w.variable)
}

/// How many rows have each variable.
fn count_all(
    alloc: Global,
    lines: &[CertLine],
    kept: &[u32],
) -> Result<HashMap<u32, Count>, AllocError>
    requires lines { AreLines lines.now kept.now }
    requires few { length kept.now ≤ 2000 }
    ensures { IfOk result (λ counts. (v : ℕ) → count_at counts v ≡ count_of (rows_of lines.now kept.now) v) }
{
    let mut counts = HashMap::new(alloc);
    for line in kept {
        count_row(&lines[*line as usize].row, &mut counts)?;
    }
    Ok(counts)
}

/// Counts one more row.
fn count_row(row: &Row, counts: &mut HashMap<u32, Count>) -> Result<(), AllocError>
    requires { (v : ℕ) → ((count_at counts.old v).lower < 2000) × ((count_at counts.old v).upper < 2000) }
    ensures { OnOk result ((v : ℕ) → count_at counts.new v ≡ counted (count_at counts.old v) (coefficient row.now.parts v)) }
{
    for part in &row.parts {
        count_part(*part, counts)?;
    }
    Ok(())
}

/// Counts the part of a row.
fn count_part(part: RowPart, counts: &mut HashMap<u32, Count>) -> Result<(), AllocError>
    requires lower { (count_at counts.old part.var).lower < 2000 }
    requires upper { (count_at counts.old part.var).upper < 2000 }
    ensures { OnOk result ((v : ℕ) →
        count_at counts.new v ≡ (if part.var == v then counted (count_at counts.old v) part.times else count_at counts.old v)) }
{
    let count = counts
        .entry(part.var)?
        .or_insert(Count { lower: 0, upper: 0 });
    *count = with_one(*count, part.times);
    Ok(())
}

fn with_one(count: Count, times: i128) -> Count
    requires lower { count.lower < 2000 }
    requires upper { count.upper < 2000 }
    ensures { result ≡ counted count times }
{
    if times < 0 {
        return Count {
            lower: count.lower + 1,
            upper: count.upper,
        };
    }
    if times > 0 {
        return Count {
            lower: count.lower,
            upper: count.upper + 1,
        };
    }
    count
}

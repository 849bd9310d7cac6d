//! A turn: the rows that have a variable give way to their combinations.

ghost use Rattle.std.specs.Prelude.{◌≡◌, ◌<◌, ◌≤◌, ◌/◌, ◌^◌, ◌++◌, ◌∷◌, [], ℕ, pos, length, fold, IfOk, IfErr, OnOk, IsTrue, List, unsigned_abs};
ghost use Rattle.std.specs.List.{AllByRecursion};
ghost use Rattle.whole_numbers.specs.Gcd.{gcd};
ghost use Rattle.lin_cert.specs.Certificate.{are_within};
ghost use Rattle.lin_rows.specs.Inequality.{Inequality, is_within};
ghost use Rattle.lin_rows.specs.Sum.{is_multiplier};
ghost use Rattle.lin_rows.specs.Sum as sum_specs;
ghost use Rattle.elimination.specs.Elimination.{Going, kept_with_sum, next_rows};
ghost use Rattle.lin_solve.specs.Answers.{EndsAs};
ghost use Rattle.lin_solve.specs.Lines.{Goes, HasTable, Leaves, Stands, row_of, rows_of};
ghost use Rattle.lin_solve.specs.Sides.{AreCombinable, IsCombinable, IsParted, combined_with, combined_with_all, sum_of};

use crate::SolveEnd;
use crate::keeping::{Kept, keep, tightened_if_new};
use lin_cert::{CertLine, CertStep};
use lin_rows::{Row, combine};
use std::alloc::{AllocError, Global};
use whole_numbers::greatest_common_divisor;

/// The line of a row that has the variable, and its coefficient without the sign.
#[derive(Clone, Copy)]
pub struct Side {
    pub line: u32,
    pub size: u128,
}

/// The rows of a turn by what they have of its variable.
#[derive(Drop)]
pub struct Parted {
    pub without: Vec<u32>,
    pub lower: Vec<Side>,
    pub upper: Vec<Side>,
}

/// What the rows of a combination are multiplied by.
#[derive(Clone, Copy)]
struct Multipliers {
    lower: i128,
    upper: i128,
}

impl Parted {
    ghost use Rattle.std.specs.Prelude.{◌≡◌, ◌<◌, ◌≤◌, ◌+◌, ◌++◌, ◌∷◌, [], List, length, OnOk, IsTrue};
    ghost use Rattle.lin_cert.specs.Certificate.{are_within};
    ghost use Rattle.lin_rows.specs.Inequality.{Inequality};
    ghost use Rattle.lin_solve.specs.Lines.{row_of};
    ghost use Rattle.lin_solve.specs.Sides.{IsParted};

    /// Adds the row of a line.
    fn add(&mut self, lines: &[CertLine], line: u32, variable: u32) -> Result<(), AllocError>
        requires here { line < length lines.now }
        requires within { IsTrue (are_within lines.now) }
        requires room { length self.old.without.items < 2000 }
        ensures parted { OnOk result ((rows : List Inequality) → IsParted lines.now rows variable self.old →
            IsParted lines.now (rows ++ row_of lines.now line ∷ []) variable self.new) }
        ensures few { OnOk result (length self.new.without.items ≤ length self.old.without.items + 1) }
    {
        let row = &lines[line as usize].row;
        let times = coefficient(row, variable);
        if times == 0 {
            self.without.push(line)?;
            return Ok(());
        }
        let side = Side {
            line,
            size: times.unsigned_abs(),
        };
        if times < 0 {
            self.lower.push(side)?;
        } else {
            self.upper.push(side)?;
        }
        Ok(())
    }
}

/// The row's coefficient of the variable, 0 where it does not have it.
fn coefficient(row: &Row, variable: u32) -> i128
    ensures value { result ≡ sum_specs.coefficient row.now.parts variable }
    ensures small { IsTrue (is_within row.now) → unsigned_abs result ≤ 2 ^ 60 }
{
    for part in &row.parts {
        let part = *part;
        if part.var == variable {
            return part.times;
        }
        if part.var > variable {
            return 0;
        }
    }
    0
}

/// The kept rows by what they have of the variable.
fn part(
    alloc: Global,
    lines: &[CertLine],
    kept: &[u32],
    variable: u32,
) -> Result<Parted, AllocError>
    requires { Stands lines.now kept.now }
    ensures { IfOk result (IsParted lines.now (rows_of lines.now kept.now) variable) }
{
    let mut parted = Parted {
        without: Vec::new(alloc),
        lower: Vec::new(alloc),
        upper: Vec::new(alloc),
    };
    for line in kept {
        parted.add(lines, *line, variable)?;
    }
    Ok(parted)
}

/// The multipliers that cancel coefficients of these sizes, with no common divisor.
fn cancelling(lower: u128, upper: u128) -> Multipliers
    requires lower { 0 < lower }
    requires upper { 0 < upper }
    requires lower_small { lower ≤ 2 ^ 60 }
    requires upper_small { upper ≤ 2 ^ 60 }
    ensures lower { result.lower ≡ pos (upper / gcd lower upper) }
    ensures upper { result.upper ≡ pos (lower / gcd lower upper) }
    ensures lower_multiplier { IsTrue (is_multiplier result.lower) }
    ensures upper_multiplier { IsTrue (is_multiplier result.upper) }
{
    let common = greatest_common_divisor(lower, upper);
    Multipliers {
        lower: (upper / common) as i128,
        upper: (lower / common) as i128,
    }
}

/// Keeps the combination of a lower row and an upper row, unless an equal row is kept.
fn combine_pair(
    alloc: Global,
    lines: &mut Vec<CertLine>,
    kept: &mut Kept,
    lower: Side,
    upper: Side,
) -> Result<(), SolveEnd>
    requires table { HasTable lines.old.items kept.old }
    requires lower { IsCombinable lines.old.items lower }
    requires upper { IsCombinable lines.old.items upper }
    ensures goes { OnOk result (Goes lines.old.items lines.new.items kept.new
        (kept_with_sum (rows_of lines.old.items kept.old.lines.items) (sum_of lines.old.items lower upper)) (λ _. Unit {0})) }
    ensures end { IfErr result (λ e. EndsAs e
        (kept_with_sum (rows_of lines.old.items kept.old.lines.items) (sum_of lines.old.items lower upper))) }
{
    let by = cancelling(lower.size, upper.size);
    let sum = combine(
        alloc,
        &lines[lower.line as usize].row,
        by.lower,
        &lines[upper.line as usize].row,
        by.upper,
    )?;
    let Some(new) = tightened_if_new(alloc, lines, kept, &sum)? else {
        return Ok(());
    };
    let step = CertStep::Comb(lower.line, by.lower, upper.line, by.upper);
    keep(lines, kept, step, sum, new)
}

/// Keeps the combinations of a lower row with each upper row in order.
fn combine_with(
    alloc: Global,
    lines: &mut Vec<CertLine>,
    kept: &mut Kept,
    lower: Side,
    uppers: &[Side],
) -> Result<(), SolveEnd>
    requires table { HasTable lines.old.items kept.old }
    requires lower { IsCombinable lines.old.items lower }
    requires uppers { AreCombinable lines.old.items uppers.now }
    ensures goes { OnOk result (Goes lines.old.items lines.new.items kept.new
        (combined_with lines.old.items uppers.now (Going (rows_of lines.old.items kept.old.lines.items)) lower) (λ _. Unit {0})) }
    ensures end { IfErr result (λ e. EndsAs e
        (combined_with lines.old.items uppers.now (Going (rows_of lines.old.items kept.old.lines.items)) lower)) }
{
    for upper in uppers {
        combine_pair(alloc, lines, kept, lower, *upper)?;
    }
    Ok(())
}

/// Keeps the combinations of each lower row in order with each upper row.
fn combine_all(
    alloc: Global,
    lines: &mut Vec<CertLine>,
    kept: &mut Kept,
    lowers: &[Side],
    uppers: &[Side],
) -> Result<(), SolveEnd>
    requires table { HasTable lines.old.items kept.old }
    requires lowers { AreCombinable lines.old.items lowers.now }
    requires uppers { AreCombinable lines.old.items uppers.now }
    ensures goes { OnOk result (Goes lines.old.items lines.new.items kept.new
        (combined_with_all lines.old.items uppers.now (Going (rows_of lines.old.items kept.old.lines.items)) lowers.now) (λ _. Unit {0})) }
    ensures end { IfErr result (λ e. EndsAs e
        (combined_with_all lines.old.items uppers.now (Going (rows_of lines.old.items kept.old.lines.items)) lowers.now)) }
{
    for lower in lowers {
        combine_with(alloc, lines, kept, *lower, uppers)?;
    }
    Ok(())
}

/// The rows without the variable, and the combinations of the others.
fn combined(
    alloc: Global,
    lines: &mut Vec<CertLine>,
    without: Vec<u32>,
    lowers: &[Side],
    uppers: &[Side],
) -> Result<Vec<u32>, SolveEnd>
    requires stands { Stands lines.old.items without.items }
    requires lowers { AreCombinable lines.old.items lowers.now }
    requires uppers { AreCombinable lines.old.items uppers.now }
    ensures leaves { IfOk result (λ next. Leaves lines.old.items lines.new.items next.items
        (combined_with_all lines.old.items uppers.now (Going (rows_of lines.old.items without.items)) lowers.now) (λ _. Unit {0})) }
    ensures end { IfErr result (λ e. EndsAs e
        (combined_with_all lines.old.items uppers.now (Going (rows_of lines.old.items without.items)) lowers.now)) }
{
    if lowers.is_empty() || uppers.is_empty() {
        return Ok(without);
    }
    let mut kept = Kept::of(alloc, lines, without)?;
    combine_all(alloc, lines, &mut kept, lowers, uppers)?;
    Ok(kept.lines)
}

/// The rows that stand after the variable's turn.
pub fn next(
    alloc: Global,
    lines: &mut Vec<CertLine>,
    kept: &[u32],
    variable: u32,
) -> Result<Vec<u32>, SolveEnd>
    requires { Stands lines.old.items kept.now }
    ensures leaves { IfOk result (λ next. Leaves lines.old.items lines.new.items next.items
        (next_rows variable (rows_of lines.old.items kept.now)) (λ _. Unit {0})) }
    ensures end { IfErr result (λ e. EndsAs e (next_rows variable (rows_of lines.old.items kept.now))) }
{
    let parted = part(alloc, lines, kept, variable)?;
    combined(alloc, lines, parted.without, &parted.lower, &parted.upper)
}

//! The rows that stand, as lines of the certificate that grows with them.

ghost use Rattle.std.specs.Prelude.{◌≡◌, ◌<◌, ◌≤◌, ◌^◌, ◌++◌, ◌∷◌, [], List, fold, length, Some, IfOk, IfErr, OnOk, OnErr, IsTrue};
ghost use Rattle.std.specs.List.{list_any};
ghost use Rattle.lin_rows.specs.Same.{same};
ghost use Rattle.lin_rows.specs.Inequality.{is_within};
ghost use Rattle.lin_rows.specs.Cut.{tightened};
ghost use Rattle.lin_cert.specs.Certificate.{are_within};
ghost use Rattle.elimination.specs.Elimination.{kept_with};
ghost use Rattle.lin_solve.specs.Answers.{EndsAs};
ghost use Rattle.lin_solve.specs.Lines.{AreLines, HasKept, HasLine, IsNew, IsTightened, HasTable, row_of, rows_of};
ghost use Rattle.lin_solve.specs.Print as print_specs;

use crate::{MOST_ROWS, SolveEnd};
use lin_cert::{CertLine, CertStep};
use lin_rows::{Row, RowPart, cut, divisor};
use std::alloc::{AllocError, Global};
use std::collections::HashMap;

/// The lines of the rows that stand, in order, and a table of where a row of each print is among them.
#[derive(Drop)]
pub struct Kept {
    pub lines: Vec<u32>,
    pub places: HashMap<u64, u32>,
}

/// What a row becomes when it is tightened.
#[derive(Drop)]
pub enum Tightened {
    /// Itself.
    Same,
    /// The row, divided by the number.
    By(i128, Row),
}

impl Kept {
    ghost use Rattle.std.specs.Prelude.{◌≡◌, ◌<◌, ◌++◌, ◌∷◌, [], ℕ, length, OnOk, IsTrue, is_some, nat_eq};
    ghost use Rattle.std.specs.HashMap.{get};
    ghost use Rattle.std.specs.Prelude.{IfOk};
    ghost use Rattle.lin_solve.specs.Lines.{HasTable, Stands};
    ghost use Rattle.lin_solve.specs.Print.{print_of};

    /// No rows.
    pub fn new(alloc: Global) -> Kept
        ensures { result.lines.items ≡ [] }
    {
        Kept {
            lines: Vec::new(alloc),
            places: HashMap::new(alloc),
        }
    }

    /// The rows of these lines.
    pub fn of(alloc: Global, lines: &[CertLine], kept: Vec<u32>) -> Result<Kept, AllocError>
        requires { Stands lines.now kept.items }
        ensures table { IfOk result (HasTable lines.now) }
        ensures lines { IfOk result (λ table. table.lines.items ≡ kept.items) }
    {
        let mut places = HashMap::new(alloc);
        for place in 0..kept.len() {
            let row = &lines[kept[place] as usize].row;
            places.insert(print(row), place as u32)?;
        }
        Ok(Kept {
            lines: kept,
            places,
        })
    }

    /// Keeps the row of a line.
    pub fn add(&mut self, line: u32, row: &Row) -> Result<(), AllocError>
        requires { length self.old.lines.items < 2000 }
        ensures lines { OnOk result (self.new.lines.items ≡ self.old.lines.items ++ line ∷ []) }
        ensures found { OnOk result (IsTrue (is_some (get nat_eq self.new.places (print_of row.now)))) }
        ensures others { OnOk result ((p : ℕ) → IsTrue (is_some (get nat_eq self.old.places p)) →
            IsTrue (is_some (get nat_eq self.new.places p))) }
    {
        let place = self.lines.len() as u32;
        self.lines.push(line)?;
        self.places.insert(print(row), place)?;
        Ok(())
    }
}

/// The number as one of 32 bits. It is refused only from 2^32 on.
pub fn small_number(number: usize) -> Result<u32, AllocError>
    ensures same { IfOk result (λ k. k ≡ number) }
    ensures refused { OnErr result (2 ^ 32 ≤ number) }
{
    if number > u32::MAX as usize {
        return Err(AllocError);
    }
    Ok(number as u32)
}

/// Adds a line, and answers its number.
pub fn push(lines: &mut Vec<CertLine>, step: CertStep, row: Row) -> Result<u32, SolveEnd>
    ensures ok { IfOk result (λ k. (k ≡ length lines.old.items)
        × (lines.new.items ≡ lines.old.items ++ record { step = step; row = row } ∷ [])) }
    ensures end { IfErr result (λ e. e ≡ SolveEnd.NoMemory) }
{
    let number = lines.len();
    lines.push(CertLine { step, row })?;
    let number = small_number(number)?;
    Ok(number)
}

/// Whether a kept row equals this one.
pub fn is_kept(lines: &[CertLine], kept: &Kept, row: &Row) -> bool
    requires { HasTable lines.now kept.now }
    ensures { result ≡ list_any (λ r. same r row.now) (rows_of lines.now kept.now.lines.items) }
{
    let Some(place) = kept.places.get(&print(row)) else {
        return false;
    };
    let place = *place as usize;
    if place < kept.lines.len() && has_row(lines, kept.lines[place], row) {
        return true;
    }
    // Another row has this print.
    is_among(lines, &kept.lines, row)
}

fn has_row(lines: &[CertLine], line: u32, row: &Row) -> bool
    requires { line < length lines.now }
    ensures { result ≡ same (row_of lines.now line) row.now }
{
    lines[line as usize].row == *row
}

fn is_among(lines: &[CertLine], kept: &[u32], row: &Row) -> bool
    requires { AreLines lines.now kept.now }
    ensures { result ≡ list_any (λ r. same r row.now) (rows_of lines.now kept.now) }
{
    for line in kept {
        if has_row(lines, *line, row) {
            return true;
        }
    }
    false
}

/// What a row becomes when it is tightened.
fn tightening(alloc: Global, row: &Row) -> Result<Tightened, AllocError>
    requires { IsTrue (is_within row.now) }
    ensures { IfOk result (IsTightened row.now) }
{
    let common = divisor(row);
    if common <= 1 {
        return Ok(Tightened::Same);
    }
    let tight = cut(alloc, row, common)?;
    Ok(Tightened::By(common as i128, tight))
}

/// Whether a kept row equals the tightened one.
fn is_kept_already(lines: &[CertLine], kept: &Kept, row: &Row, new: &Tightened) -> bool
    requires table { HasTable lines.now kept.now }
    requires tightened { IsTightened row.now new.now }
    ensures { result ≡ list_any (λ r. same r (tightened row.now)) (rows_of lines.now kept.now.lines.items) }
{
    match new {
        Tightened::Same => is_kept(lines, kept, row),
        Tightened::By(_, tight) => is_kept(lines, kept, tight),
    }
}

/// The row tightened, or none where an equal one is kept. It is Rows where a new one would be the 2,001st.
pub fn tightened_if_new(
    alloc: Global,
    lines: &[CertLine],
    kept: &Kept,
    row: &Row,
) -> Result<Option<Tightened>, SolveEnd>
    requires table { HasTable lines.now kept.now }
    requires within { IsTrue (is_within row.now) }
    ensures new { IfOk result (IsNew (rows_of lines.now kept.now.lines.items) row.now) }
    ensures end { IfErr result (λ e. EndsAs e (kept_with (rows_of lines.now kept.now.lines.items) (tightened row.now))) }
{
    let new = tightening(alloc, row)?;
    if is_kept_already(lines, kept, row, &new) {
        return Ok(None);
    }
    if kept.lines.len() >= MOST_ROWS {
        return Err(SolveEnd::Rows);
    }
    Ok(Some(new))
}

/// Adds the line of a row, and one of what it is tightened to where that is another, and answers the number of the last.
fn push_tightened(
    lines: &mut Vec<CertLine>,
    step: CertStep,
    row: Row,
    new: Tightened,
) -> Result<u32, SolveEnd>
    requires lines_within { IsTrue (are_within lines.old.items) }
    requires within { IsTrue (is_within row) }
    requires tightened { IsTightened row new }
    ensures lines { IfOk result (HasLine lines.old.items lines.new.items step row) }
    ensures end { IfErr result (λ e. e ≡ SolveEnd.NoMemory) }
{
    let number = push(lines, step, row)?;
    match new {
        Tightened::Same => Ok(number),
        Tightened::By(by, tight) => push(lines, CertStep::Cut(number, by), tight),
    }
}

/// Adds the lines of a row, and keeps the last.
pub fn keep(
    lines: &mut Vec<CertLine>,
    kept: &mut Kept,
    step: CertStep,
    row: Row,
    new: Tightened,
) -> Result<(), SolveEnd>
    requires table { HasTable lines.old.items kept.old }
    requires room { length kept.old.lines.items < 2000 }
    requires within { IsTrue (is_within row) }
    requires tightened { IsTightened row new }
    ensures kept { OnOk result (HasKept lines.old.items kept.old lines.new.items kept.new step row) }
    ensures end { IfErr result (λ e. e ≡ SolveEnd.NoMemory) }
{
    let last = push_tightened(lines, step, row, new)?;
    kept.add(last, &lines[last as usize].row)?;
    Ok(())
}

/// Equal rows have equal prints, and few others do.
#[tactic(auto, unfolding(crate::specs::Print::print_of))]
fn print(row: &Row) -> u64
    ensures { result ≡ print_specs.print_of row.now }
{
    print_from(low(row.bound), &row.parts)
}

fn print_from(start: u64, parts: &[RowPart]) -> u64
    ensures { result ≡ fold (λ print part. print_specs.mixed (print_specs.mixed print part.var) (print_specs.low part.times)) start parts.now }
{
    let mut print = start;
    for part in parts {
        print = with_part(print, *part);
    }
    print
}

fn with_part(print: u64, part: RowPart) -> u64
    ensures { result ≡ print_specs.mixed (print_specs.mixed print part.var) (print_specs.low part.times) }
{
    mixed(mixed(print, u64::from(part.var)), low(part.times))
}

fn mixed(print: u64, word: u64) -> u64
    ensures { result ≡ print_specs.mixed print word }
{
    print.wrapping_add(word).wrapping_mul(0x9e37_79b9_7f4a_7c15)
}

/// The low bits of a number, and its sign.
fn low(number: i128) -> u64
    ensures { result ≡ print_specs.low number }
{
    let bits = (number.unsigned_abs() % (1 << 62)) as u64;
    if number < 0 { 2 * bits + 1 } else { 2 * bits }
}

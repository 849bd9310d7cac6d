//! Certificates that rows of linear arithmetic have no whole-number solution.
//!
//! A certificate is a list of rows. Each is one of the given rows, the sum of multiples of two earlier ones, or an earlier one
//! divided by what its coefficients have in common; the last is a contradiction. `accepts` checks one, takes no memory, and
//! trusts nobody who made it: where it answers true, no values of the variables satisfy the given rows.
#![tactic(auto)]

ghost use Rattle.std.specs.Prelude.{◌≡◌, ◌↔◌, ◌-◌, Some, [], slice_get, length, IsTrue, List};
ghost use Rattle.lin_rows.specs.Inequality.{Inequality, HaveNoSolution};
ghost use Rattle.lin_rows.specs.Inequality as row_specs;
ghost use Rattle.lin_rows.specs.Sum as sum_specs;
ghost use Rattle.lin_cert.specs.declared.CertLine.{CertLine};
ghost use Rattle.lin_cert.specs.Certificate.{IsAccepted, IsDerivation, IsRight, row_of, row_at, are_within, is_contradiction_at};

use lin_rows::{LIMIT, Row, is_contradiction, is_cut, is_sum, is_within};
use std::marker::Model;

/// How a line's row follows. Lines are numbered from 0.
#[derive(Clone, Copy, Debug, PartialEq, Eq)]
pub enum CertStep {
    /// The given row of this number.
    Take(u32),
    /// An earlier line's row times a number from 1 to 2^60, and another's times another.
    Comb(u32, i128, u32, i128),
    /// An earlier line's row divided by a number from 1 to 2^60 that divides its coefficients, the bound rounded down.
    Cut(u32, i128),
}

/// A row, and how it follows.
#[derive(Debug, Drop)]
pub struct CertLine {
    pub step: CertStep,
    pub row: Row,
}

/// Lines in order. Contracts see the list.
#[derive(Debug, Drop)]
pub struct Cert {
    pub lines: Vec<CertLine>,
}

impl Model for Cert {
    ghost use Rattle.std.specs.Prelude.{List};
    ghost use Rattle.lin_cert.specs.declared.CertLine.{CertLine};

    ghost Value = { List CertLine };

    ghost view = { λ a. a.lines.items };
}

/// Whether the certificate shows that the rows have no whole-number solution: each line's step and row are right, no number
/// is beyond 2^60, and the last row is a contradiction.
pub fn accepts(rows: &[Row], cert: &Cert) -> bool
    ensures exact { IsTrue result ↔ IsAccepted rows.now cert.now }
    ensures sound { IsTrue result → HaveNoSolution rows.now }
{
    derives(rows, &cert.lines) && ends_in_contradiction(&cert.lines)
}

/// Whether each line is right over the lines before it.
fn derives(rows: &[Row], lines: &[CertLine]) -> bool
    ensures { IsTrue result ↔ IsDerivation rows.now lines.now }
{
    for k in 0..lines.len() {
        if !is_right(rows, &lines[..k], &lines[k]) {
            return false;
        }
    }
    true
}

/// Whether the last line's row is a contradiction.
fn ends_in_contradiction(lines: &[CertLine]) -> bool
    ensures { result ≡ is_contradiction_at (row_at lines.now (length lines.now - 1)) }
{
    match lines.last() {
        Some(line) => is_contradiction(&line.row),
        None => false,
    }
}

/// Whether a line has the row that its step gives over the lines before it, with no number beyond 2^60.
fn is_right(rows: &[Row], earlier: &[CertLine], line: &CertLine) -> bool
    requires { IsTrue (are_within earlier.now) }
    ensures { IsTrue result ↔ IsRight rows.now earlier.now line.now }
{
    is_within(&line.row) && gives(rows, earlier, line.step, &line.row)
}

/// Whether the step gives the row.
fn gives(rows: &[Row], earlier: &[CertLine], step: CertStep, row: &Row) -> bool
    requires earlier_within { IsTrue (are_within earlier.now) }
    requires within { IsTrue (row_specs.is_within row.now) }
    ensures { IsTrue result ↔ (row_of rows.now earlier.now step ≡ Some row.now) }
{
    match step {
        CertStep::Take(i) => has_row(rows, i, row),
        CertStep::Comb(i, a, j, b) => gives_sum(earlier, i, a, j, b, row),
        CertStep::Cut(i, by) => gives_cut(earlier, i, by, row),
    }
}

fn has_row(rows: &[Row], i: u32, row: &Row) -> bool
    ensures { IsTrue result ↔ (slice_get rows.now i ≡ Some row.now) }
{
    let i = i as usize;
    i < rows.len() && rows[i] == *row
}

/// Whether a number from 1 to 2^60.
fn is_multiplier(number: i128) -> bool
    ensures { result ≡ sum_specs.is_multiplier number }
{
    1 <= number && number <= LIMIT as i128
}

fn gives_sum(earlier: &[CertLine], i: u32, a: i128, j: u32, b: i128, row: &Row) -> bool
    requires { IsTrue (are_within earlier.now) }
    ensures { IsTrue result ↔ (row_of [] earlier.now (CertStep.Comb i a j b) ≡ Some row.now) }
{
    if !is_multiplier(a) || !is_multiplier(b) {
        return false;
    }
    let i = i as usize;
    let j = j as usize;
    if i >= earlier.len() || j >= earlier.len() {
        return false;
    }
    is_sum(row, &earlier[i].row, a, &earlier[j].row, b)
}

fn gives_cut(earlier: &[CertLine], i: u32, by: i128, row: &Row) -> bool
    requires earlier_within { IsTrue (are_within earlier.now) }
    requires within { IsTrue (row_specs.is_within row.now) }
    ensures { IsTrue result ↔ (row_of [] earlier.now (CertStep.Cut i by) ≡ Some row.now) }
{
    if !is_multiplier(by) {
        return false;
    }
    let i = i as usize;
    if i >= earlier.len() {
        return false;
    }
    is_cut(row, &earlier[i].row, by)
}

/// Rows with an accepted certificate have no whole-number solution, for any values of the variables.
pub fn accepted_rows_have_no_solution()
    ensures { (rows : List Inequality) (lines : List CertLine) → IsAccepted rows lines → HaveNoSolution rows }
{}

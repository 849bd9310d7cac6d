//! The turns of an elimination, up to its end.

ghost use Rattle.std.specs.Prelude.{◌≡◌, ◌<◌, ◌+◌, false, List, length, take, IfOk, IfErr, MatchOption, IsTrue, ◌↔◌};
ghost use Rattle.std.specs.List.{list_any, AllByRecursion};
ghost use Rattle.lin_rows.specs.Inequality.{HaveNoSolution};
ghost use Rattle.lin_rows.specs.Inequality as row_specs;
ghost use Rattle.elimination.specs.Elimination.{elimination};
ghost use Rattle.lin_solve.specs.Answers.{IsAnswer, IsClosed, IsEnd};
ghost use Rattle.lin_solve.specs.Lines.{AreLines, row_of, rows_of};

use crate::choosing::choose;
use crate::starting::start;
use crate::turning::next;
use crate::{SolveEnd, Solved};
use lin_cert::{Cert, CertLine};
use lin_rows::{Row, is_contradiction, is_within};
use std::alloc::Global;

/// Whether no number of the rows is beyond 2^60, as `solve` wants it.
pub fn are_within(rows: &[Row]) -> bool
    ensures { IsTrue result ↔ AllByRecursion (λ row. IsTrue (row_specs.is_within row)) rows.now }
{
    for row in rows {
        if !is_within(row) {
            return false;
        }
    }
    true
}

/// How the elimination of the rows ends, which have no number beyond 2^60.
///
/// Closed has a certificate that `lin_cert::accepts` accepts for these rows, so they have no whole-number solution.
pub fn solve(alloc: Global, rows: &[Row]) -> Result<Solved, SolveEnd>
    requires { AllByRecursion (λ row. IsTrue (row_specs.is_within row)) rows.now }
    // Each answer but want of memory is the end that the elimination of the rows has.
    ensures answer { IfOk result (IsAnswer rows.now) }
    ensures end { IfErr result (IsEnd rows.now) }
    ensures sound { IfOk result (λ solved. IsClosed solved → HaveNoSolution rows.now) }
{
    let mut lines = Vec::new(alloc);
    let mut kept = start(alloc, rows, &mut lines)?;
    'turns: loop {
        if let Some(line) = contradiction(&lines, &kept) {
            return Ok(Solved::Closed(certificate(lines, line)));
        }
        let Some(variable) = choose(alloc, &lines, &kept)? else {
            return Ok(Solved::Open);
        };
        kept = next(alloc, &mut lines, &kept, variable)?;
    }
}

/// The first kept line whose row is a contradiction.
fn contradiction(lines: &[CertLine], kept: &[u32]) -> Option<u32>
    requires { AreLines lines.now kept.now }
    ensures { MatchOption result (list_any row_specs.is_contradiction (rows_of lines.now kept.now) ≡ false)
        (λ line. (line < length lines.now) × IsTrue (row_specs.is_contradiction (row_of lines.now line))
        × IsTrue (list_any row_specs.is_contradiction (rows_of lines.now kept.now))) }
{
    for line in kept {
        if is_contradiction(&lines[*line as usize].row) {
            return Some(*line);
        }
    }
    None
}

/// The lines up to the last that is wanted.
fn certificate(lines: Vec<CertLine>, last: u32) -> Cert
    ensures { result ≡ take (last + 1) lines.items }
{
    let mut lines = lines;
    lines.truncate(last as usize + 1);
    Cert { lines }
}

//! The rows that stand before the first turn.

ghost use Rattle.std.specs.Prelude.{◌≡◌, [], IfOk, IfErr, OnOk, IsTrue, Some, slice_get, List};
ghost use Rattle.std.specs.List.{AllByRecursion};
ghost use Rattle.lin_rows.specs.Inequality.{is_within};
ghost use Rattle.lin_rows.specs.Cut.{tightened};
ghost use Rattle.lin_cert.specs.Certificate.{IsDerivation};
ghost use Rattle.elimination.specs.Elimination.{kept_with, started, Going};
ghost use Rattle.lin_solve.specs.Answers.{EndsAs};
ghost use Rattle.lin_solve.specs.Lines.{Goes, HasTable, Stands, rows_of};

use crate::SolveEnd;
use crate::keeping::{Kept, keep, small_number, tightened_if_new};
use lin_cert::{CertLine, CertStep};
use lin_rows::Row;
use std::alloc::Global;

/// Each row tightened, and of equal rows the first.
pub fn start(alloc: Global, rows: &[Row], lines: &mut Vec<CertLine>) -> Result<Vec<u32>, SolveEnd>
    requires within { AllByRecursion (λ r. IsTrue (is_within r)) rows.now }
    requires empty { lines.old.items ≡ [] }
    ensures going { IfOk result (λ kept. started rows.now ≡ Going (rows_of lines.new.items kept.items)) }
    ensures stands { IfOk result (λ kept. Stands lines.new.items kept.items) }
    ensures derives { IfOk result (λ _. IsDerivation rows.now lines.new.items) }
    ensures end { IfErr result (λ e. EndsAs e (started rows.now)) }
{
    let mut kept = Kept::new(alloc);
    for i in 0..rows.len() {
        start_row(alloc, &rows[i], i, lines, &mut kept)?;
    }
    Ok(kept.lines)
}

/// Keeps the given row of this number, unless an equal one is kept.
fn start_row(
    alloc: Global,
    row: &Row,
    number: usize,
    lines: &mut Vec<CertLine>,
    kept: &mut Kept,
) -> Result<(), SolveEnd>
    requires table { HasTable lines.old.items kept.old }
    requires within { IsTrue (is_within row.now) }
    ensures goes { OnOk result (Goes lines.old.items lines.new.items kept.new
        (kept_with (rows_of lines.old.items kept.old.lines.items) (tightened row.now))
        (λ given. slice_get given number ≡ Some row.now)) }
    ensures end { IfErr result (λ e. EndsAs e (kept_with (rows_of lines.old.items kept.old.lines.items) (tightened row.now))) }
{
    let number = small_number(number)?;
    let Some(new) = tightened_if_new(alloc, lines, kept, row)? else {
        return Ok(());
    };
    let copied = row.copy(alloc)?;
    keep(lines, kept, CertStep::Take(number), copied, new)
}

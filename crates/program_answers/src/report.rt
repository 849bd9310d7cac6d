ghost use Rattle.std.specs.Prelude.{◌≡◌, ℕ, map, IfOk};
ghost use Rattle.leg_orders.specs.Places.{program_of};
ghost use Rattle.proof_closing.specs.Prover.{IsCurrent, Leaves, stop_of};
ghost use Rattle.leg_answers.specs.Answering.{accepting_by};
ghost use Rattle.verdicts.specs.Reports.{report_bytes};
ghost use Rattle.project_reports.specs.Texts.{verdicts_code, verdicts_text};
ghost use Rattle.program_answers.specs.Lines.{names_in, lines_by, plain_line, report_code};

use crate::lines::program_verdicts;
use leg_answers::{CloseEnd, LegProver};
use lk_programs::Typed;
use std::alloc::Global;
use verdicts::{Line, Report, verified_count};

/// The report on the program: the verdicts on its methods.
pub fn program_report<P: LegProver>(
    alloc: Global,
    typed: Typed,
    prover: &mut P,
) -> Result<Report, CloseEnd>
    requires current { IsCurrent (P.work prover.old) }
    ensures report { IfOk result (λ report. (revision : ℕ) → report_bytes revision report
        ≡ verdicts_text revision (names_in typed) (lines_by P.reason (accepting_by P.closes) (program_of typed))) }
    ensures code { IfOk result (λ report. report_code report ≡ verdicts_code (lines_by P.reason (accepting_by P.closes) (program_of typed))) }
    ensures leaves { Leaves (P.work prover.old) (P.work prover.new) (stop_of result) }
{
    match program_verdicts(alloc, &typed, prover) {
        Ok(lines) => Ok(Report::Verdicts { typed, lines }),
        Err(end) => Err(end),
    }
}

/// The exit code of the verdicts: 0 where all methods are verified, and else 1.
fn verdicts_code(lines: &[Line]) -> u8
    ensures { result ≡ verdicts_code (map plain_line lines.now) }
{
    let verified = verified_count(lines);
    if verified == lines.len() { 0 } else { 1 }
}

/// The exit code that goes with a report: 2 where there are faults, and else that of the verdicts.
pub fn report_code(report: &Report) -> u8
    ensures { result ≡ report_code report.now }
{
    match report {
        Report::Faults(_) => 2,
        Report::Verdicts { lines, .. } => verdicts_code(lines.as_slice()),
    }
}

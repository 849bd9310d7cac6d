ghost use Rattle.std.specs.Prelude.{List, IfErr, IfOk, OnOk, map};
ghost use Rattle.project_reports.specs.Projects as project;
ghost use Rattle.project_reading.specs.Texts.{text_seen};
ghost use Rattle.project_loading.specs.Ends.{IfFaults, IsProgramOf};
ghost use Rattle.project_check.specs.Reports.{IsReportOn, VerifiedAreSafe};

use crate::NoMemory;
use lk_io::NeverStop;
use lk_programs::Typed;
use program_answers::program_report;
use project_loading::{CheckEnd, load};
use project_reading::NamedText;
use rule_prover::RuleProver;
use std::alloc::{AllocError, Global};
use verdicts::Report;

/// The verdicts on the methods of a program, one after the other.
fn report_of(alloc: Global, typed: Typed) -> Result<Report, NoMemory>
    ensures { IfOk result (λ report. (texts : List project.NamedText) → IsProgramOf texts typed → IsReportOn texts report) }
{
    let mut prover = RuleProver::new(0, NeverStop);
    match program_report(alloc, typed, &mut prover) {
        Ok(report) => Ok(report),
        Err(_) => Err(AllocError),
    }
}

/// The faults of texts that have no program.
pub fn faults_of(end: CheckEnd) -> Result<Report, NoMemory>
    ensures { IfOk result (λ report. (texts : List project.NamedText) → IfFaults end (project.HasFaults texts) → IsReportOn texts report) }
{
    match end {
        CheckEnd::Faults(faults) => Ok(Report::Faults(faults)),
        CheckEnd::NoMemory => Err(AllocError),
    }
}

/// The report on the texts of a project: the verdict on each method, or the first fault of each file that has one.
pub fn check_plain(alloc: Global, texts: &[NamedText]) -> Result<Report, NoMemory>
    ensures report { IfOk result (IsReportOn (map text_seen texts.now)) }
    ensures safe { OnOk result (VerifiedAreSafe (map text_seen texts.now)) }
{
    match load(alloc, texts) {
        Ok(typed) => report_of(alloc, typed),
        Err(end) => faults_of(end),
    }
}

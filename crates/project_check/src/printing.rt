ghost use Rattle.std.specs.Prelude.{◌≤◌, List, IfOk, OnOk, map};
ghost use Rattle.project_reports.specs.Projects as named;
ghost use Rattle.project_reports.specs.Reports as project;
ghost use Rattle.project_reading.specs.Texts.{text_seen};
ghost use Rattle.project_check.specs.Reports.{IsReportOn, VerifiedAreSafe};

use crate::NoMemory;
use crate::checking::check_plain;
use program_answers::report_code;
use project_reading::NamedText;
use std::alloc::{AllocError, Global};
use verdicts::{Report, report_text};

/// What is printed for a project, and the exit code.
#[derive(Drop)]
pub struct Checked {
    pub text: Vec<u8>,
    pub code: u8,
}

/// What is printed of a report as the first revision, with its exit code.
pub fn printed(alloc: Global, report: &Report) -> Result<Checked, NoMemory>
    ensures exact { (texts : List named.NamedText) → IsReportOn texts report.now
        → IfOk result (λ checked. project.IsReport 1 texts checked.text.items checked.code) }
    ensures code { IfOk result (λ checked. checked.code ≤ 2) }
{
    match report_text(alloc, 1, report) {
        Ok(text) => Ok(Checked {
            text,
            code: report_code(report),
        }),
        Err(_) => Err(AllocError),
    }
}

/// What is printed for the texts of a project, and the exit code: 0 where all methods are verified, 1 where some is not, and 2
/// where some text has a fault.
pub fn check_texts(alloc: Global, texts: &[NamedText]) -> Result<Checked, NoMemory>
    ensures exact { IfOk result (λ checked. project.IsReport 1 (map text_seen texts.now) checked.text.items checked.code) }
    ensures code { IfOk result (λ checked. checked.code ≤ 2) }
    ensures safe { OnOk result (VerifiedAreSafe (map text_seen texts.now)) }
{
    match check_plain(alloc, texts) {
        Ok(report) => printed(alloc, &report),
        Err(_) => Err(AllocError),
    }
}

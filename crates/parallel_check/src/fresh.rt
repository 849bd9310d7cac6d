ghost use Rattle.std.specs.Prelude.{◌≡◌, ◌≤◌, ◌<◌, List, IfOk, OnOk, map};
ghost use Rattle.leg_orders.specs.Places.{program_of};
ghost use Rattle.program_keys.specs.Keys.{program_legs};
ghost use Rattle.parallel_check.specs.Answers.{answer_of};
ghost use Rattle.project_reports.specs.Projects as project;
ghost use Rattle.project_reading.specs.Texts.{text_seen};
ghost use Rattle.project_loading.specs.Ends.{IsProgramOf};
ghost use Rattle.project_check.specs.Reports.{IsReportOn, VerifiedAreSafe};

use crate::NoMemory;
use crate::answers::{all_answers, found_answers};
use crate::lines::answered_lines;
use lk_programs::Typed;
use program_keys::program_keys;
use program_trees::Answer;
use project_check::{check_plain, faults_of};
use project_loading::load;
use project_reading::NamedText;
use sqlite_items::Items;
use std::alloc::{AllocError, Global};
use std::thread::Threads;
use verdicts::Report;

/// The answers for the legs of a program, by at most so many threads.
fn program_answers<R: Threads + Sync>(
    rt: &R,
    alloc: Global,
    typed: &Typed,
    threads: usize,
) -> Result<Items<Answer>, NoMemory>
    requires { 0 < threads }
    ensures { IfOk result (λ answers. answers ≡ map answer_of (program_legs (program_of typed.now))) }
{
    let keys = program_keys(alloc, typed)?;
    match found_answers(rt, alloc, &keys, threads) {
        Err(_) => Err(AllocError),
        Ok(found) => all_answers(alloc, &keys, &found),
    }
}

/// The verdicts on the methods of a program, by at most so many threads.
fn report_of<R: Threads + Sync>(
    rt: &R,
    alloc: Global,
    typed: Typed,
    threads: usize,
) -> Result<Report, NoMemory>
    requires { 0 < threads }
    ensures { IfOk result (λ report. (texts : List project.NamedText) → IsProgramOf texts typed → IsReportOn texts report) }
{
    match program_answers(rt, alloc, &typed, threads) {
        Err(_) => Err(AllocError),
        Ok(answers) => match answered_lines(alloc, &typed, answers.as_slice()) {
            Err(_) => Err(AllocError),
            Ok(lines) => Ok(Report::Verdicts { typed, lines }),
        },
    }
}

/// The report on the texts of a project, by at most so many threads.
fn check_on_threads<R: Threads + Sync>(
    rt: &R,
    alloc: Global,
    texts: &[NamedText],
    threads: usize,
) -> Result<Report, NoMemory>
    requires { 0 < threads }
    ensures report { IfOk result (IsReportOn (map text_seen texts.now)) }
    ensures safe { OnOk result (VerifiedAreSafe (map text_seen texts.now)) }
{
    match load(alloc, texts) {
        Ok(typed) => report_of(rt, alloc, typed, threads),
        Err(end) => faults_of(end),
    }
}

/// The report on the texts of a project, where so many workers, 64 at most, find the verdicts: the one of `check_plain`.
/// Without workers no thread is made.
pub fn check_fresh<R: Threads + Sync>(
    rt: &R,
    alloc: Global,
    texts: &[NamedText],
    workers: u32,
) -> Result<Report, NoMemory>
    requires { workers ≤ 64 }
    ensures report { IfOk result (IsReportOn (map text_seen texts.now)) }
    ensures safe { OnOk result (VerifiedAreSafe (map text_seen texts.now)) }
{
    if workers == 0 {
        check_plain(alloc, texts)
    } else {
        check_on_threads(rt, alloc, texts, workers as usize)
    }
}

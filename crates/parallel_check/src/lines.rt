ghost use Rattle.std.specs.Prelude.{◌≡◌, ◌<◌, ◌≤◌, [], ◌∷◌, ◌++◌, IfOk, OnOk, drop, length, map};
ghost use Rattle.leg_orders.specs.Places.{program_of, method_of};
ghost use Rattle.verdict_laws.specs.Rules.{unclosed, unaccepted, verdict_by_rules};
ghost use Rattle.verdicts.specs.Choice.{plain_verdict};
ghost use Rattle.program_answers.specs.Lines.{plain_line, line_by, lines_by};
ghost use Rattle.program_keys.specs.Keys.{method_legs, program_legs};
ghost use Rattle.parallel_check.specs.Answers.{answer_of, answers_of, BeginsWith};

use crate::NoMemory;
use legs::{LegsEnd, legs_of};
use lk_programs::Typed;
use program_trees::Answer;
use sqlite_items::Items;
use std::alloc::{AllocError, Global};
use verdicts::{Line, Verdict, method_verdict};

/// The verdict on a method, and how many answers it is made of.
#[derive(Clone, Copy)]
pub struct Told {
    verdict: Verdict,
    used: usize,
}

/// The verdict on the method of that number, by the answers for its legs, with which these begin.
fn verdict_on(
    alloc: Global,
    typed: &Typed,
    method: u32,
    answers: &[Answer],
) -> Result<Told, NoMemory>
    requires method { method < length typed.now.methods }
    requires answers { BeginsWith (map answer_of (method_legs (program_of typed.now) (method_of typed.now method))) answers.now }
    ensures verdict { IfOk result (λ told. plain_verdict told.verdict ≡ verdict_by_rules (program_of typed.now) (method_of typed.now method)) }
    ensures used { IfOk result (λ told. told.used ≡ length (method_legs (program_of typed.now) (method_of typed.now method))) }
{
    match legs_of(alloc, typed, method) {
        Ok(legs) => Ok(Told {
            verdict: method_verdict(&legs, answers),
            used: legs.legs.len(),
        }),
        Err(end) => match end {
            LegsEnd::Many { .. } => Ok(Told {
                verdict: Verdict::ManyLegs,
                used: 0,
            }),
            LegsEnd::NoMemory => Err(AllocError),
        },
    }
}

/// The verdict beside the name of the method of that number.
fn line_of(alloc: Global, typed: &Typed, number: usize, verdict: Verdict) -> Result<Line, NoMemory>
    requires method { number < length typed.now.methods }
    requires verdict { plain_verdict verdict ≡ verdict_by_rules (program_of typed.now) (method_of typed.now number) }
    ensures { IfOk result (λ line. plain_line line ≡ line_by unclosed unaccepted (program_of typed.now) (method_of typed.now number)) }
{
    let own = &typed.methods.as_slice()[number];
    match own.name.copy(alloc) {
        Ok(method) => Ok(Line { method, verdict }),
        Err(_) => Err(AllocError),
    }
}

/// Adds the verdict on the method of that number.
fn push_line(
    alloc: Global,
    typed: &Typed,
    number: usize,
    verdict: Verdict,
    lines: &mut Items<Line>,
) -> Result<(), NoMemory>
    requires method { number < length typed.now.methods }
    requires verdict { plain_verdict verdict ≡ verdict_by_rules (program_of typed.now) (method_of typed.now number) }
    ensures { OnOk result (map plain_line lines.new ≡ map plain_line lines.old
        ++ line_by unclosed unaccepted (program_of typed.now) (method_of typed.now number) ∷ []) }
{
    match line_of(alloc, typed, number, verdict) {
        Err(_) => Err(AllocError),
        Ok(line) => match lines.push(line) {
            Ok(()) => Ok(()),
            Err(_) => Err(AllocError),
        },
    }
}

/// Adds the verdict on the method of that number, and tells how many answers it is made of.
fn add_line(
    alloc: Global,
    typed: &Typed,
    number: usize,
    answers: &[Answer],
    lines: &mut Items<Line>,
) -> Result<usize, NoMemory>
    requires method { number < length typed.now.methods }
    requires answers { BeginsWith (map answer_of (method_legs (program_of typed.now) (method_of typed.now number))) answers.now }
    ensures lines { OnOk result (map plain_line lines.new ≡ map plain_line lines.old
        ++ line_by unclosed unaccepted (program_of typed.now) (method_of typed.now number) ∷ []) }
    ensures used { IfOk result (λ used. used ≡ length (method_legs (program_of typed.now) (method_of typed.now number))) }
{
    match u32::try_from(number) {
        Err(_) => Err(AllocError),
        Ok(method) => match verdict_on(alloc, typed, method, answers) {
            Err(_) => Err(AllocError),
            Ok(told) => match push_line(alloc, typed, number, told.verdict, lines) {
                Ok(()) => Ok(told.used),
                Err(_) => Err(AllocError),
            },
        },
    }
}

/// The answers behind those that were used.
fn behind(answers: &[Answer], used: usize) -> &[Answer]
    requires { used ≤ length answers.now }
    ensures { result.now ≡ drop used answers.now }
{
    &answers[used..]
}

/// Adds the verdict on each method.
fn add_lines(
    alloc: Global,
    typed: &Typed,
    answers: &[Answer],
    lines: &mut Items<Line>,
) -> Result<(), NoMemory>
    requires answers { answers.now ≡ map answer_of (program_legs (program_of typed.now)) }
    requires nothing { lines.old ≡ [] }
    ensures { OnOk result (map plain_line lines.new ≡ lines_by unclosed unaccepted (program_of typed.now)) }
{
    let mut left = answers;
    for number in 0..typed.methods.len() {
        match add_line(alloc, typed, number, left, lines) {
            Ok(used) => left = behind(left, used),
            Err(_) => return Err(AllocError),
        }
    }
    Ok(())
}

/// The verdicts on the methods of the program, in the order of the methods, by the answers for its legs.
pub fn answered_lines(
    alloc: Global,
    typed: &Typed,
    answers: &[Answer],
) -> Result<Items<Line>, NoMemory>
    requires { answers.now ≡ map answer_of (program_legs (program_of typed.now)) }
    ensures { IfOk result (λ lines. map plain_line lines ≡ lines_by unclosed unaccepted (program_of typed.now)) }
{
    let mut lines = Items::new(alloc);
    match add_lines(alloc, typed, answers, &mut lines) {
        Ok(()) => Ok(lines),
        Err(_) => Err(AllocError),
    }
}

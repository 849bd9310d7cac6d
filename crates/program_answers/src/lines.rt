ghost use Rattle.std.specs.Prelude.{◌≡◌, ◌<◌, ◌++◌, ◌∷◌, [], None, Ok, length, map, slice_get, Some, IfOk, OnOk, IsOk};
ghost use Rattle.leg_orders.specs.Places.{program_of, method_of};
ghost use Rattle.proof_closing.specs.Prover.{IsCurrent, Leaves, stop_of};
ghost use Rattle.leg_answers.specs.Answering.{accepting_by};
ghost use Rattle.program_answers.specs.Lines.{plain_line, line_by, lines_by};

use crate::NoMemory;
use leg_answers::{CloseEnd, LegProver};
use lk_programs::Typed;
use method_answers::method_answer;
use slang_tree::Text;
use sqlite_items::Items;
use std::alloc::Global;
use verdicts::{Line, Verdict};

/// The name beside the verdict.
fn line_over(name: Result<Text, NoMemory>, verdict: Verdict) -> Result<Line, CloseEnd>
    ensures line { IfOk result (λ line. (name ≡ Ok line.method) × (line.verdict ≡ verdict)) }
    ensures stop { stop_of result ≡ None }
{
    match name {
        Ok(method) => Ok(Line { method, verdict }),
        Err(_) => Err(CloseEnd::NoMemory),
    }
}

/// The number as that of a method.
fn number_of(number: usize) -> Result<u32, CloseEnd>
    ensures number { IfOk result (λ n. n ≡ number) }
    ensures stop { stop_of result ≡ None }
{
    match u32::try_from(number) {
        Ok(n) => Ok(n),
        Err(_) => Err(CloseEnd::NoMemory),
    }
}

/// The verdict on the method of that number, beside its name.
fn verdict_line<P: LegProver>(
    alloc: Global,
    typed: &Typed,
    method: u32,
    prover: &mut P,
) -> Result<Line, CloseEnd>
    requires current { IsCurrent (P.work prover.old) }
    requires method { method < length typed.now.methods }
    ensures line { IfOk result (λ line. plain_line line
        ≡ line_by P.reason (accepting_by P.closes) (program_of typed.now) (method_of typed.now method)) }
    ensures leaves { Leaves (P.work prover.old) (P.work prover.new) (stop_of result) }
{
    let own = &typed.methods.as_slice()[method as usize];
    match method_answer(alloc, typed, method, prover) {
        Err(end) => Err(end),
        Ok(verdict) => line_over(own.name.copy(alloc), verdict),
    }
}

/// Adds the verdict on the method of that number.
fn add_line<P: LegProver>(
    alloc: Global,
    typed: &Typed,
    number: usize,
    prover: &mut P,
    lines: &mut Items<Line>,
) -> Result<(), CloseEnd>
    requires current { IsCurrent (P.work prover.old) }
    requires method { number < length typed.now.methods }
    ensures lines { OnOk result (map plain_line lines.new ≡ map plain_line lines.old
        ++ line_by P.reason (accepting_by P.closes) (program_of typed.now) (method_of typed.now number) ∷ []) }
    ensures leaves { Leaves (P.work prover.old) (P.work prover.new) (stop_of result) }
{
    match number_of(number) {
        Err(end) => Err(end),
        Ok(method) => match verdict_line(alloc, typed, method, prover) {
            Err(end) => Err(end),
            Ok(line) => match lines.push(line) {
                Ok(()) => Ok(()),
                Err(_) => Err(CloseEnd::NoMemory),
            },
        },
    }
}

/// Adds the verdict on each method.
fn add_lines<P: LegProver>(
    alloc: Global,
    typed: &Typed,
    prover: &mut P,
    lines: &mut Items<Line>,
) -> Result<(), CloseEnd>
    requires current { IsCurrent (P.work prover.old) }
    requires nothing { lines.old ≡ [] }
    ensures lines { OnOk result (map plain_line lines.new ≡ lines_by P.reason (accepting_by P.closes) (program_of typed.now)) }
    ensures leaves { Leaves (P.work prover.old) (P.work prover.new) (stop_of result) }
{
    for number in 0..typed.methods.len() {
        match add_line(alloc, typed, number, prover, lines) {
            Ok(()) => {}
            Err(end) => return Err(end),
        }
    }
    Ok(())
}

/// The verdicts on the methods of the program, in the order of the methods.
pub fn program_verdicts<P: LegProver>(
    alloc: Global,
    typed: &Typed,
    prover: &mut P,
) -> Result<Items<Line>, CloseEnd>
    requires current { IsCurrent (P.work prover.old) }
    ensures lines { IfOk result (λ lines. map plain_line lines ≡ lines_by P.reason (accepting_by P.closes) (program_of typed.now)) }
    ensures leaves { Leaves (P.work prover.old) (P.work prover.new) (stop_of result) }
{
    let mut lines = Items::new(alloc);
    match add_lines(alloc, typed, prover, &mut lines) {
        Ok(()) => Ok(lines),
        Err(end) => Err(end),
    }
}

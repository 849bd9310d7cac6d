ghost use Rattle.std.specs.Prelude.{◌≡◌, ◌<◌, ◌++◌, [], length, map, string_bytes, IfOk, OnOk, ℕ, List};
ghost use Rattle.std.specs.List.{flat_map};
ghost use Rattle.run_values.specs.Value.{plain_value};
ghost use Rattle.run_rules.specs.Runs.{method_at};
ghost use Rattle.run_steps.specs.Steps.{program_of};
ghost use Rattle.stopped_runs.specs.Runs.{command_run};
ghost use Rattle.interp.specs.Machines.{run_of, IsMachineOf};
ghost use Rattle.verdicts.specs.Texts.{fault_text};
ghost use Rattle.run_starts.specs.Methods.{HasName};
ghost use Rattle.run_lines.specs.Lines.{names_in};
ghost use Rattle.project_reading.specs.Texts.{text_seen};
ghost use Rattle.run_command.specs.Runs.{IsRanTo, IsRunOf, IsRunReport};

use crate::NoMemory;
use call_arguments::read_arguments;
use interp::Machine;
use lk_programs::Typed;
use project_loading::{CheckEnd, load};
use project_reading::NamedText;
use run_lines::{run_code, run_line};
use run_starts::{initial_globals, method_named};
use run_steps::method_at;
use run_values::Value;
use slang_tree::FileFault;
use sqlite_items::Items;
use std::alloc::{AllocError, Global};
use verdicts::fault_text;

/// What the command writes, and its code.
#[derive(Drop)]
pub struct Ran {
    pub text: Vec<u8>,
    pub code: u8,
}

/// The code where the program has no method of the name, or the words are no arguments of it.
pub const NO_FIT: u8 = 11;

/// Runs the method of that name with so many turns from the words as its arguments, where each global has its initial value. Where the
/// texts have faults their lines are written, with the code 2.
pub fn run_texts(
    alloc: Global,
    texts: &[NamedText],
    method: &str,
    turns: u64,
    words: &[String],
) -> Result<Ran, NoMemory>
    ensures { IfOk result (λ ran. IsRunReport (map text_seen texts.now) method.now turns (map string_bytes words.now) ran.text.items ran.code) }
{
    match load(alloc, texts) {
        Err(CheckEnd::NoMemory) => Err(AllocError),
        Err(CheckEnd::Faults(faults)) => told_faults(alloc, faults.as_slice()),
        Ok(typed) => run_program(alloc, &typed, method, turns, words),
    }
}

/// One line for each fault.
fn told_faults(alloc: Global, faults: &[FileFault]) -> Result<Ran, NoMemory>
    ensures text { IfOk result (λ ran. ran.text.items ≡ flat_map fault_text faults.now) }
    ensures code { IfOk result (λ ran. ran.code ≡ 2) }
{
    let mut text = Vec::new(alloc);
    match add_faults(alloc, &mut text, faults) {
        Err(end) => Err(end),
        Ok(()) => Ok(Ran { text, code: 2 }),
    }
}

fn add_faults(alloc: Global, text: &mut Vec<u8>, faults: &[FileFault]) -> Result<(), NoMemory>
    ensures { OnOk result (text.new.items ≡ text.old.items ++ flat_map fault_text faults.now) }
{
    for fault in faults {
        let written = fault_text(alloc, fault)?;
        text.extend_from_slice(written.as_bytes())?;
    }
    Ok(())
}

/// Runs the method of that name.
fn run_program(
    alloc: Global,
    typed: &Typed,
    method: &str,
    turns: u64,
    words: &[String],
) -> Result<Ran, NoMemory>
    ensures { IfOk result (λ ran. IsRunOf (program_of typed.now) (names_in typed.now) method.now turns (map string_bytes words.now) ran.text.items ran.code) }
{
    match method_named(typed, method) {
        Err(end) => Err(end),
        Ok(None) => Ok(no_fit(alloc)),
        Ok(Some(number)) => run_method(alloc, typed, number, turns, words),
    }
}

/// Nothing is written.
fn no_fit(alloc: Global) -> Ran
    ensures text { result.text.items ≡ [] }
    ensures code { result.code ≡ 11 }
{
    Ran {
        text: Vec::new(alloc),
        code: NO_FIT,
    }
}

/// Runs the method of that number from words.
fn run_method(
    alloc: Global,
    typed: &Typed,
    number: u32,
    turns: u64,
    words: &[String],
) -> Result<Ran, NoMemory>
    requires { number < length (program_of typed.now).methods }
    ensures { IfOk result (λ ran. (method : List ℕ) → HasName (program_of typed.now) number method
        → IsRunOf (program_of typed.now) (names_in typed.now) method turns (map string_bytes words.now) ran.text.items ran.code) }
{
    let own = method_at(typed, number);
    match read_arguments(
        alloc,
        typed.records.as_slice(),
        own.params.as_slice(),
        words,
    ) {
        Err(end) => Err(end),
        Ok(None) => Ok(no_fit(alloc)),
        Ok(Some(arguments)) => run_from(alloc, typed, number, turns, arguments),
    }
}

/// Runs the method of that number from these arguments.
fn run_from(
    alloc: Global,
    typed: &Typed,
    number: u32,
    turns: u64,
    arguments: Items<Value>,
) -> Result<Ran, NoMemory>
    requires there { number < length (program_of typed.now).methods }
    requires as_many { length arguments ≡ length (method_at (program_of typed.now) number).params }
    ensures { IfOk result (λ ran. IsRanTo (names_in typed.now)
        (command_run (program_of typed.now) (method_at (program_of typed.now) number) (map plain_value arguments) turns) ran.text.items ran.code) }
{
    match initial_globals(alloc, typed) {
        Err(end) => Err(end),
        Ok(globals) => match Machine::new(alloc, typed, number, arguments, globals) {
            Err(end) => Err(end),
            Ok(machine) => {
                let mut machine = machine;
                run_machine(alloc, typed, &mut machine, turns)
            }
        },
    }
}

/// Gives the run so many turns, and tells what became of it.
fn run_machine(
    alloc: Global,
    typed: &Typed,
    machine: &mut Machine,
    turns: u64,
) -> Result<Ran, NoMemory>
    requires { IsMachineOf (program_of typed.now) machine.old }
    ensures { IfOk result (λ ran. IsRanTo (names_in typed.now) (run_of (program_of typed.now) machine.old turns) ran.text.items ran.code) }
{
    let told = machine.advance(alloc, typed, turns);
    match run_line(alloc, typed, told, machine.value()) {
        Err(end) => Err(end),
        Ok(text) => Ok(Ran {
            text,
            code: run_code(told),
        }),
    }
}

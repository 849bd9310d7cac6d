ghost use Rattle.std.specs.Prelude.{◌≡◌, ◌++◌, codes, IfOk, OnOk};
ghost use Rattle.run_values.specs.Value.{plain_value};
ghost use Rattle.slang_values.specs.Value as plain;
ghost use Rattle.interp.specs.Advances.{IsTold};
ghost use Rattle.interp.specs.Machines.{IsKnown};
ghost use Rattle.stopped_runs.specs.Runs.{Stopped};
ghost use Rattle.run_texts.specs.Texts.{kind_text, node_text, value_text, run_text};
ghost use Rattle.run_lines.specs.Lines.{names_in, run_code};

use crate::NoMemory;
use crate::nodes::{add_node, kind_word};
use interp::Turned;
use lk_programs::{Kind, NodeNo, Typed};
use run_values::Value;
use std::alloc::{AllocError, Global};
use value_texts::{add_text, add_value};

/// The line of a run of which that is told, where the value is that of one that has ended. Want of memory is no end of a run.
pub fn run_line(
    alloc: Global,
    typed: &Typed,
    told: Turned,
    value: &Value,
) -> Result<Vec<u8>, NoMemory>
    ensures known { OnOk result (IsKnown told) }
    ensures line { IfOk result (λ text. (stopped : Stopped) → IsTold told (plain_value value.now) stopped
        → text.items ≡ run_text (names_in typed.now) stopped) }
{
    let mut text = Vec::new(alloc);
    match told_line(alloc, typed, told, value, &mut text) {
        Err(end) => Err(end),
        Ok(()) => Ok(text),
    }
}

fn told_line(
    alloc: Global,
    typed: &Typed,
    told: Turned,
    value: &Value,
    text: &mut Vec<u8>,
) -> Result<(), NoMemory>
    ensures known { OnOk result (IsKnown told) }
    ensures line { OnOk result ((stopped : Stopped) → IsTold told (plain_value value.now) stopped
        → text.new.items ≡ text.old.items ++ run_text (names_in typed.now) stopped) }
{
    match told {
        Turned::Ended => ended_line(alloc, typed, value, text),
        Turned::Going => add_text("going\n", text),
        Turned::Fails { kind, node } => fails_line(alloc, typed, kind, node, text),
        Turned::Wide { node } => stopped_line(alloc, typed, "wide ", node, text),
        Turned::Visits { node } => stopped_line(alloc, typed, "visits ", node, text),
        Turned::NoMemory => Err(AllocError),
    }
}

fn ended_line(
    alloc: Global,
    typed: &Typed,
    value: &Value,
    text: &mut Vec<u8>,
) -> Result<(), NoMemory>
    ensures { OnOk result (text.new.items ≡ text.old.items ++ (codes "ended " ++ (value_text (names_in typed.now) (plain_value value.now) ++ codes "\n"))) }
{
    add_text("ended ", text)?;
    add_value(alloc, typed.records.as_slice(), value, text)?;
    add_text("\n", text)
}

fn fails_line(
    alloc: Global,
    typed: &Typed,
    kind: Kind,
    node: NodeNo,
    text: &mut Vec<u8>,
) -> Result<(), NoMemory>
    ensures { OnOk result (text.new.items ≡ text.old.items ++ (codes "fails "
        ++ (kind_text (names_in typed.now) kind ++ (codes " " ++ (node_text (names_in typed.now) node.0 ++ codes "\n"))))) }
{
    add_text("fails ", text)?;
    add_text(kind_word(kind), text)?;
    add_text(" ", text)?;
    add_node(alloc, typed, node, text)?;
    add_text("\n", text)
}

fn stopped_line(
    alloc: Global,
    typed: &Typed,
    word: &str,
    node: NodeNo,
    text: &mut Vec<u8>,
) -> Result<(), NoMemory>
    ensures { OnOk result (text.new.items ≡ text.old.items ++ (word.now ++ (node_text (names_in typed.now) node.0 ++ codes "\n"))) }
{
    add_text(word, text)?;
    add_node(alloc, typed, node, text)?;
    add_text("\n", text)
}

/// The code of the command, where that is told of its run.
pub fn run_code(told: Turned) -> u8
    ensures { (value : plain.Value) (stopped : Stopped) → IsKnown told → IsTold told value stopped → result ≡ run_code stopped }
{
    match told {
        Turned::Ended => 0,
        Turned::Fails { .. } => 1,
        Turned::Going | Turned::Wide { .. } | Turned::Visits { .. } | Turned::NoMemory => 9,
    }
}

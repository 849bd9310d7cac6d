ghost use Rattle.std.specs.Prelude.{◌≡◌, IfOk, OnOk};
ghost use Rattle.slang_tree.specs.ExprTree.{expr_tree};
ghost use Rattle.program_trees.specs.Variables.{Variable};
ghost use Rattle.type_rules.specs.Meanings.{Scope};
ghost use Rattle.typed_texts.specs.Code as typed;
ghost use Rattle.typed_texts.specs.Values.{value_of_tree};
ghost use Rattle.lk_programs.specs.Program.{code_tree};
ghost use Rattle.name_scopes.specs.Fits.{Fits};
ghost use Rattle.typed_names.specs.Fields.{HasFields};
ghost use Rattle.typed_names.specs.Nodes.{IsMade};
ghost use Rattle.typed_names.specs.Variables.{number_in};
ghost use Rattle.call_making.specs.Codes.{IsSetting, numbered_code};

use crate::NoMemory;
use crate::calling::called;
use crate::sides::call_in;
use lk_programs::{Code, Expr as Value, NodeNo, RecordTy};
use name_scopes::NameScope;
use slang_tree::{Expr, Place};
use std::alloc::Global;
use typed_names::{Nodes, Numbering};
use value_making::value_of;

/// A variable gets a value, at a `val` or a `var`, or else at an assignment.
#[tactic(auto, using(lk_programs::proofs::Codes::code_lines))]
fn setting(node: NodeNo, declares: bool, variable: u32, value: Value) -> Code
    ensures { IsSetting node variable value result }
{
    if declares {
        Code::Val {
            node,
            variable,
            value,
        }
    } else {
        Code::Assign {
            node,
            variable,
            value,
        }
    }
}

/// A variable gets the value of an expression.
fn set_to(
    value: &Expr,
    alloc: Global,
    scope: &mut NameScope,
    nodes: &mut Nodes,
    records: &[RecordTy],
    numbers: Numbering,
    place: Place,
    declares: bool,
    target: u32,
) -> Result<Code, NoMemory>
    ensures made { IfOk result (λ code. (at : Scope) (x : Variable) → Fits scope.old at → HasFields records.now at → target ≡ number_in numbers x
        → IsMade nodes.old nodes.new (code_tree code) (numbered_code numbers (typed.set_to place x (value_of_tree at (expr_tree value.now))))) }
    ensures scope { OnOk result (scope.new ≡ scope.old) }
{
    let node = nodes.add(place)?;
    let value = value_of(value, alloc, scope, nodes, records, numbers)?;
    Ok(setting(node, declares, target, value))
}

/// A variable gets the value of a right side, which may be a call. It is a local that is declared there, or else it stood before.
pub fn assigned(
    value: &Expr,
    alloc: Global,
    scope: &mut NameScope,
    nodes: &mut Nodes,
    records: &[RecordTy],
    numbers: Numbering,
    place: Place,
    declares: bool,
    target: u32,
) -> Result<Code, NoMemory>
    ensures made { IfOk result (λ code. (at : Scope) (x : Variable) → Fits scope.old at → HasFields records.now at → target ≡ number_in numbers x
        → IsMade nodes.old nodes.new (code_tree code) (numbered_code numbers (typed.assigned at place x (expr_tree value.now)))) }
    ensures scope { OnOk result (scope.new ≡ scope.old) }
{
    match call_in(scope, value) {
        None => set_to(
            value, alloc, scope, nodes, records, numbers, place, declares, target,
        ),
        Some((name, arguments)) => called(
            arguments,
            alloc,
            scope,
            nodes,
            records,
            numbers,
            place,
            Some(target),
            name,
        ),
    }
}

ghost use Rattle.std.specs.Prelude.{◌≡◌, IfOk, OnOk, Option, map};
ghost use Rattle.std.specs.Option.{option_map};
ghost use Rattle.slang_tree.specs.ExprTree.{expr_tree, exprs_of};
ghost use Rattle.program_trees.specs.Variables.{Variable};
ghost use Rattle.type_rules.specs.Meanings.{Scope, meaning_of};
ghost use Rattle.typed_texts.specs.Code as typed;
ghost use Rattle.lk_programs.specs.Program.{code_tree};
ghost use Rattle.name_scopes.specs.Fits.{Fits};
ghost use Rattle.typed_names.specs.Fields.{HasFields};
ghost use Rattle.typed_names.specs.Nodes.{IsMade};
ghost use Rattle.typed_names.specs.Variables.{number_in};
ghost use Rattle.call_making.specs.Codes.{numbered_code};

use crate::NoMemory;
use lk_programs::{Code, RecordTy};
use name_scopes::NameScope;
use slang_tree::{Expr, Name, Place};
use std::alloc::Global;
use typed_names::{Nodes, Numbering};
use typed_parts::{Head, head_named};
use value_making::values_of;

/// The number of the method of that name, or 0.
fn method_number(scope: &NameScope, name: &str) -> u32
    ensures { (at : Scope) → Fits scope.now at → result ≡ typed.method_meant (meaning_of at name.now) }
{
    match head_named(scope, name) {
        Head::Method(number) => number,
        Head::Value => 0,
        Head::Record(_) => 0,
    }
}

/// A call of a method, the result of which goes to the target, where there is one.
pub fn called(
    arguments: &[Expr],
    alloc: Global,
    scope: &mut NameScope,
    nodes: &mut Nodes,
    records: &[RecordTy],
    numbers: Numbering,
    place: Place,
    target: Option<u32>,
    name: &Name,
) -> Result<Code, NoMemory>
    ensures made { IfOk result (λ code. (at : Scope) (x : Option Variable) → Fits scope.old at → HasFields records.now at → target ≡ option_map (number_in numbers) x
        → IsMade nodes.old nodes.new (code_tree code)
        (numbered_code numbers (typed.call_of at place x name.now.place (meaning_of at name.now.text) (exprs_of (map expr_tree arguments.now))))) }
    ensures scope { OnOk result (scope.new ≡ scope.old) }
{
    let node = nodes.add(place)?;
    let called = nodes.add(name.place)?;
    let method = method_number(scope, name.text.as_str());
    let arguments = values_of(arguments, alloc, scope, nodes, records, numbers)?;
    Ok(Code::Call {
        node,
        target,
        name: called,
        method,
        arguments,
    })
}

ghost use Rattle.std.specs.Prelude.{◌≡◌, IfOk, OnOk, map};
ghost use Rattle.slang_tree.specs.ExprTree.{expr_tree};
ghost use Rattle.slang_tree.specs.StmtTree as text;
ghost use Rattle.type_rules.specs.Meanings.{Scope, meaning_of};
ghost use Rattle.typed_texts.specs.Code as typed;
ghost use Rattle.lk_programs.specs.Program.{code_tree};
ghost use Rattle.name_scopes.specs.Fits.{Fits};
ghost use Rattle.typed_names.specs.Fields.{HasFields};
ghost use Rattle.typed_names.specs.Nodes.{IsMade};
ghost use Rattle.typed_names.specs.Variables.{kind_seen, number_in};
ghost use Rattle.call_making.specs.Codes.{numbered_code};

use crate::NoMemory;
use call_making::assigned;
use lk_programs::{Code, RecordTy};
use name_scopes::NameScope;
use slang_tree::{Expr, Name};
use sqlite_items::Items;
use std::alloc::Global;
use typed_names::{Nodes, Numbering, VariableKind, variable_named};

/// The variable that a name means. Where it means none it is the first local.
fn variable_meant(scope: &NameScope, name: &str) -> VariableKind
    ensures { (at : Scope) → Fits scope.now at → kind_seen result ≡ typed.variable_meant (meaning_of at name.now) }
{
    match variable_named(scope, name) {
        None => VariableKind::Local(0),
        Some(variable) => variable,
    }
}

/// The number of the variable that a name means.
fn number_meant(scope: &NameScope, numbers: Numbering, name: &Name) -> Result<u32, NoMemory>
    ensures { IfOk result (λ n. (at : Scope) → Fits scope.now at → n ≡ number_in numbers (typed.variable_meant (meaning_of at name.now.text))) }
{
    let number = numbers.number_of(variable_meant(scope, name.text.as_str()))?;
    Ok(number)
}

/// The numbers of the variables of these names.
pub fn variables_meant(
    alloc: Global,
    scope: &NameScope,
    numbers: Numbering,
    names: &[Name],
) -> Result<Items<u32>, NoMemory>
    ensures { IfOk result (λ ns. (at : Scope) → Fits scope.now at → ns ≡ map (number_in numbers) (typed.variables_meant at names.now)) }
{
    let mut found = Items::new(alloc);
    for name in names {
        found.push(number_meant(scope, numbers, name)?)?;
    }
    Ok(found)
}

/// A variable gets the value of a right side.
pub fn assignment(
    value: &Expr,
    alloc: Global,
    scope: &mut NameScope,
    nodes: &mut Nodes,
    records: &[RecordTy],
    numbers: Numbering,
    name: &Name,
) -> Result<Code, NoMemory>
    ensures made { IfOk result (λ code. (at : Scope) → Fits scope.old at → HasFields records.now at
        → IsMade nodes.old nodes.new (code_tree code) (numbered_code numbers (typed.code_of_tree at (text.assignment name.now (expr_tree value.now))))) }
    ensures scope { OnOk result (scope.new ≡ scope.old) }
{
    let target = number_meant(scope, numbers, name)?;
    assigned(
        value, alloc, scope, nodes, records, numbers, name.place, false, target,
    )
}

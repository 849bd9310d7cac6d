ghost use Rattle.std.specs.Prelude.{◌≡◌, IfOk, OnOk};
ghost use Rattle.std.specs.Option.{option_map};
ghost use Rattle.slang_tree.specs.DeclTree.{return_tree};
ghost use Rattle.lk_programs.specs.Program.{code_tree, code_trees};
ghost use Rattle.type_rules.specs.Meanings.{Scope};
ghost use Rattle.name_scopes.specs.Fits.{Fits};
ghost use Rattle.typed_names.specs.Fields.{HasFields};
ghost use Rattle.typed_names.specs.Nodes.{IsMade};
ghost use Rattle.typed_names.specs.Variables.{number_in};
ghost use Rattle.method_making.specs.Methods.{give_in, return_in, with_code};

use crate::NoMemory;
use lk_programs::{Code, RecordTy};
use name_scopes::NameScope;
use slang_tree::Return;
use sqlite_items::Items;
use std::alloc::Global;
use typed_names::{Nodes, Numbering};
use value_making::value_of;

/// A return as a statement of the program.
#[tactic(auto, using(lk_programs::proofs::Codes::code_lines))]
fn made_give(
    alloc: Global,
    scope: &mut NameScope,
    nodes: &mut Nodes,
    records: &[RecordTy],
    numbers: Numbering,
    returned: &Return,
) -> Result<Code, NoMemory>
    ensures code { IfOk result (λ code. (at : Scope) → Fits scope.old at → HasFields records.now at
        → IsMade nodes.old nodes.new (code_tree code) (give_in (number_in numbers) at (return_tree returned.now))) }
    ensures scope { OnOk result (scope.new ≡ scope.old) }
{
    let node = nodes.add(returned.place)?;
    let value = value_of(&returned.value, alloc, scope, nodes, records, numbers)?;
    Ok(Code::Return { node, value })
}

/// The return of a method as a statement of the program, if it has one.
pub fn made_return(
    alloc: Global,
    scope: &mut NameScope,
    nodes: &mut Nodes,
    records: &[RecordTy],
    numbers: Numbering,
    returned: &Option<Return>,
) -> Result<Option<Code>, NoMemory>
    ensures code { IfOk result (λ code. (at : Scope) → Fits scope.old at → HasFields records.now at
        → IsMade nodes.old nodes.new (option_map code_tree code) (return_in (number_in numbers) at (option_map return_tree returned.now))) }
    ensures scope { OnOk result (scope.new ≡ scope.old) }
{
    match returned {
        None => Ok(None),
        Some(returned) => {
            let code = made_give(alloc, scope, nodes, records, numbers, returned)?;
            Ok(Some(code))
        }
    }
}

/// A return behind code, if there is one.
pub fn add_return(codes: &mut Items<Code>, returned: Option<Code>) -> Result<(), NoMemory>
    ensures { OnOk result (code_trees codes.new ≡ with_code (code_trees codes.old) (option_map code_tree returned)) }
{
    match returned {
        None => Ok(()),
        Some(code) => codes.push(code),
    }
}

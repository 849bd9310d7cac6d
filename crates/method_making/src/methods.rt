ghost use Rattle.std.specs.Prelude.{◌≡◌, IfOk, List, OnOk};
ghost use Rattle.slang_tree.specs.DeclTree.{method_decl_tree};
ghost use Rattle.lk_programs.specs.Program.{method_tree};
ghost use Rattle.type_rules.specs.Meanings.{Declared, Scope};
ghost use Rattle.name_scopes.specs.Fits.{Fits};
ghost use Rattle.signature_judging.specs.Knows.{Knows};
ghost use Rattle.typed_names.specs.Fields.{HasFields};
ghost use Rattle.typed_names.specs.Nodes.{IsMade};
ghost use Rattle.claim_making.specs.Parts.{FromThree};
ghost use Rattle.method_making.specs.Methods.{method_in};
ghost use Rattle.method_making.specs.Made.{IsMethodOf};

use crate::NoMemory;
use crate::numbers::numbering;
use crate::parts::{Parts, made_parts};
use header_making::made_modifies;
use lk_programs::{Method, NodeNo, RecordTy};
use method_judging::leave_method;
use name_scopes::NameScope;
use owned_results::all_three;
use slang_tree::{MethodDecl, Text};
use sqlite_items::Items;
use std::alloc::Global;
use typed_names::Nodes;

/// A method of these parts.
fn method_with(
    node: NodeNo,
    name: Result<Text, NoMemory>,
    modifies: Result<Items<u32>, NoMemory>,
    parts: Result<Parts, NoMemory>,
) -> Result<Method, NoMemory>
    ensures { IfOk result (FromThree name modifies parts (IsMethodOf node)) }
{
    let (name, modifies, parts) = all_three(name, modifies, parts)?;
    Ok(Method {
        name,
        node,
        params: parts.header.params,
        result: parts.header.result,
        requires_: parts.requires_,
        modifies,
        ensures_: parts.ensures_,
        locals: parts.body.locals,
        body: parts.body.code,
    })
}

/// The method of the program that a method stands for, where there are so many globals. The scope then fits what it fitted before.
pub fn made_method(
    alloc: Global,
    outline: &mut NameScope,
    scope: &mut NameScope,
    nodes: &mut Nodes,
    records: &[RecordTy],
    globals: u32,
    decl: &MethodDecl,
) -> Result<Method, NoMemory>
    ensures method { IfOk result (λ made. (names : List Declared) (at : Scope) → Knows outline.old.names names → Fits scope.old at → HasFields records.now at
        → IsMade nodes.old nodes.new (method_tree made) (method_in globals names at (method_decl_tree decl.now))) }
    ensures fits { OnOk result ((names : List Declared) (at : Scope) → Knows outline.old.names names → Fits scope.old at → HasFields records.now at
        → Fits scope.new at) }
    ensures outline { OnOk result (outline.new ≡ outline.old) }
{
    let names = scope.names.len();
    let covered = scope.covered.len();
    let locals = scope.locals;
    let numbers = numbering(globals, decl)?;
    let node = nodes.add(decl.name.place)?;
    let parts = made_parts(alloc, outline, scope, nodes, records, numbers, decl);
    leave_method(scope, names, covered, locals);
    let modifies = made_modifies(alloc, scope, decl.modifies.as_slice());
    method_with(node, decl.name.text.copy(alloc), modifies, parts)
}

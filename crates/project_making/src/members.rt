ghost use Rattle.std.specs.Prelude.{OnOk, List};
ghost use Rattle.slang_tree.specs.DeclTree.{DeclTree, decl_tree, global_decl, global_decl_tree, method_decl, method_decl_tree};
ghost use Rattle.type_rules.specs.Projects as rule;
ghost use Rattle.name_scopes.specs.Fits.{Fits};
ghost use Rattle.typed_names.specs.Fields.{HasFields};
ghost use Rattle.project_scopes.specs.IsProject.{IsProject};
ghost use Rattle.project_making.specs.Members.{IsAdded};

use crate::NoMemory;
use global_making::made_global;
use lk_programs::{Global as TypedGlobal, Method, RecordTy};
use method_making::made_method;
use name_scopes::NameScope;
use project_scopes::ProjectScopes;
use slang_tree::{Decl, GlobalDecl, MethodDecl};
use sqlite_items::Items;
use std::alloc::Global;
use typed_names::Nodes;

/// The globals and the methods of a program, each in the order of the text.
#[derive(Drop)]
pub struct Members {
    pub globals: Items<TypedGlobal>,
    pub methods: Vec<Method>,
}

/// A global behind other members.
fn add_global(
    alloc: Global,
    outline: &NameScope,
    nodes: &mut Nodes,
    globals: u32,
    members: &mut Members,
    decl: &GlobalDecl,
) -> Result<(), NoMemory>
    ensures { OnOk result ((decls : List DeclTree) → Fits outline.now (rule.outline_of decls)
        → IsAdded globals nodes.old nodes.new members.old members.new decls (global_decl (global_decl_tree decl.now))) }
{
    let global = made_global(alloc, outline, nodes, decl)?;
    members.globals.push(global)
}

/// A method behind other members.
fn add_method(
    alloc: Global,
    known: &mut ProjectScopes,
    nodes: &mut Nodes,
    records: &[RecordTy],
    globals: u32,
    members: &mut Members,
    decl: &MethodDecl,
) -> Result<(), NoMemory>
    ensures added { OnOk result ((decls : List DeclTree) → IsProject known.old decls → HasFields records.now (rule.scope_of decls)
        → IsAdded globals nodes.old nodes.new members.old members.new decls (method_decl (method_decl_tree decl.now))) }
    ensures known { OnOk result ((decls : List DeclTree) → IsProject known.old decls → HasFields records.now (rule.scope_of decls)
        → IsProject known.new decls) }
{
    let method = made_method(
        alloc,
        &mut known.outline,
        &mut known.scope,
        nodes,
        records,
        globals,
        decl,
    )?;
    members.methods.push(method)?;
    Ok(())
}

/// What a declaration stands for, behind other members.
pub fn add_decl(
    alloc: Global,
    known: &mut ProjectScopes,
    nodes: &mut Nodes,
    records: &[RecordTy],
    globals: u32,
    members: &mut Members,
    decl: &Decl,
) -> Result<(), NoMemory>
    ensures added { OnOk result ((decls : List DeclTree) → IsProject known.old decls → HasFields records.now (rule.scope_of decls)
        → IsAdded globals nodes.old nodes.new members.old members.new decls (decl_tree decl.now)) }
    ensures known { OnOk result ((decls : List DeclTree) → IsProject known.old decls → HasFields records.now (rule.scope_of decls)
        → IsProject known.new decls) }
{
    match decl {
        Decl::Import { .. } => Ok(()),
        Decl::Record(_) => Ok(()),
        Decl::Global(global) => add_global(alloc, &known.outline, nodes, globals, members, global),
        Decl::Method(method) => add_method(alloc, known, nodes, records, globals, members, method),
    }
}

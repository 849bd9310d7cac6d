ghost use Rattle.std.specs.Prelude.{◌≡◌, [], IfOk, List, Ok, map};
ghost use Rattle.slang_tree.specs.DeclTree.{DeclTree};
ghost use Rattle.type_rules.specs.Projects as rule;
ghost use Rattle.height_rules.specs.Faults.{whole_faults};
ghost use Rattle.typed_texts.specs.TypedProjects as typed;
ghost use Rattle.typed_names.specs.Fields.{HasFields};
ghost use Rattle.project_files.specs.Files.{decl_of, file_of, file_seen};
ghost use Rattle.project_scopes.specs.IsProject.{IsProject};
ghost use Rattle.project_making.specs.Members.{decls_in};
ghost use Rattle.project_making.specs.Projects.{AreMembersOf, ArePartsOf, IsTypedOf};

use crate::NoMemory;
use crate::counting::{file_names, global_count};
use crate::files::add_files;
use crate::members::Members;
use lk_programs::{Global as TypedGlobal, Method, NodePlace, RecordTy, Typed};
use method_sorting::sort_methods;
use owned_results::both;
use project_files::{declarations, in_order};
use project_scopes::{ProjectScopes, scopes_of};
use record_making::made_records;
use slang_tree::{Decl, NamedFile, Text};
use sqlite_items::Items;
use std::alloc::Global;
use typed_names::Nodes;

/// The globals, the methods in the order of their names, and the nodes of a program.
#[derive(Drop)]
pub struct Sorted {
    pub globals: Items<TypedGlobal>,
    pub methods: Items<Method>,
    pub nodes: Items<NodePlace>,
}

/// The parts of a program.
#[derive(Drop)]
pub struct ProjectParts {
    pub files: Items<Text>,
    pub records: Items<RecordTy>,
    pub sorted: Sorted,
}

/// The members of files, in the scopes of their project.
fn made_members(
    alloc: Global,
    known: &mut ProjectScopes,
    records: &[RecordTy],
    globals: u32,
    files: &[&NamedFile],
) -> Result<Sorted, NoMemory>
    ensures { IfOk result (λ sorted. (all : List DeclTree) → IsProject known.old all → HasFields records.now (rule.scope_of all)
        → AreMembersOf globals sorted all (map file_of files.now)) }
{
    let places = Items::new(alloc);
    let found = Items::new(alloc);
    let methods = Vec::new(alloc);
    let mut nodes = Nodes { file: 0, places };
    let mut members = Members {
        globals: found,
        methods,
    };
    add_files(
        alloc,
        known,
        &mut nodes,
        records,
        globals,
        &mut members,
        files,
    )?;
    sort_methods(&mut members.methods)?;
    Ok(Sorted {
        globals: members.globals,
        methods: Items::from_vec(members.methods),
        nodes: nodes.places,
    })
}

/// All parts.
fn parts_with(
    files: Result<Items<Text>, NoMemory>,
    records: Items<RecordTy>,
    sorted: Result<Sorted, NoMemory>,
) -> Result<ProjectParts, NoMemory>
    ensures { IfOk result (λ parts. (files ≡ Ok parts.files) × (parts.records ≡ records) × (sorted ≡ Ok parts.sorted)) }
{
    match both(files, sorted) {
        Err(e) => Err(e),
        Ok((files, sorted)) => Ok(ProjectParts {
            files,
            records,
            sorted,
        }),
    }
}

/// The parts of the program of files in this order, which have these declarations.
fn parts_among(
    alloc: Global,
    decls: &[&Decl],
    files: &[&NamedFile],
) -> Result<ProjectParts, NoMemory>
    ensures { IfOk result (λ parts. map decl_of decls.now ≡ decls_in (map file_of files.now) → ArePartsOf parts (map file_of files.now)) }
{
    let globals = global_count(decls)?;
    let mut known = scopes_of(alloc, decls)?;
    let records = made_records(alloc, &known.outline, known.allowed.as_slice(), decls)?;
    let sorted = made_members(alloc, &mut known, records.as_slice(), globals, files);
    parts_with(file_names(alloc, files), records, sorted)
}

/// The parts of the program of files in this order.
fn ordered_parts(alloc: Global, files: &[&NamedFile]) -> Result<ProjectParts, NoMemory>
    ensures { IfOk result (λ parts. ArePartsOf parts (map file_of files.now)) }
{
    let decls = declarations(alloc, files)?;
    parts_among(alloc, decls.as_slice(), files)
}

/// The typed program of a project without faults.
pub fn typed_project(alloc: Global, files: &[NamedFile]) -> Result<Typed, NoMemory>
    requires { whole_faults (map file_seen files.now) ≡ [] }
    ensures { IfOk result (λ made. IsTypedOf made (typed.typed_project (map file_seen files.now))) }
{
    let ordered = in_order(alloc, files)?;
    let parts = ordered_parts(alloc, ordered.as_slice())?;
    Ok(Typed::new(
        parts.files,
        parts.records,
        parts.sorted.globals,
        parts.sorted.methods,
        parts.sorted.nodes,
    ))
}

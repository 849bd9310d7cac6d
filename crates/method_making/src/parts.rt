ghost use Rattle.std.specs.Prelude.{◌≡◌, IfOk, List, OnOk};
ghost use Rattle.slang_tree.specs.DeclTree.{method_decl_tree};
ghost use Rattle.type_rules.specs.Meanings.{Declared, Scope};
ghost use Rattle.type_rules.specs.Projects.{contract_scope};
ghost use Rattle.name_scopes.specs.Fits.{Fits};
ghost use Rattle.signature_judging.specs.Knows.{Knows};
ghost use Rattle.typed_names.specs.Fields.{HasFields};
ghost use Rattle.typed_names.specs.Nodes.{IsMade};
ghost use Rattle.typed_names.specs.Variables.{number_in};
ghost use Rattle.claim_making.specs.Parts.{FromThree};
ghost use Rattle.method_judging.specs.Bodies.{behind_body};
ghost use Rattle.method_making.specs.Methods.{parts_in};
ghost use Rattle.method_making.specs.Made.{IsPartsOf, IsWithin, parts_seen};

use crate::NoMemory;
use crate::bodies::{Body, made_body};
use expression_forms::Context;
use header_judging::judged_header;
use header_making::{Header, made_header};
use lk_programs::{Noted, RecordTy};
use name_scopes::NameScope;
use noted_claims::all_noted;
use owned_results::all_three;
use slang_tree::MethodDecl;
use sqlite_items::Items;
use std::alloc::Global;
use type_faults::FirstFault;
use typed_names::{Nodes, Numbering};

/// A method without its name and what it modifies.
#[derive(Drop)]
pub struct Parts {
    pub header: Header,
    pub requires_: Items<Noted>,
    pub ensures_: Items<Noted>,
    pub body: Body,
}

/// All parts.
fn parts_with(
    header: Header,
    requires_: Result<Items<Noted>, NoMemory>,
    ensures_: Result<Items<Noted>, NoMemory>,
    body: Result<Body, NoMemory>,
) -> Result<Parts, NoMemory>
    ensures { IfOk result (FromThree requires_ ensures_ body (IsPartsOf header)) }
{
    match all_three(requires_, ensures_, body) {
        Err(e) => Err(e),
        Ok((requires_, ensures_, body)) => Ok(Parts {
            header,
            requires_,
            ensures_,
            body,
        }),
    }
}

/// The parts of a method. Behind them the scope is that behind the method's statements.
pub fn made_parts(
    alloc: Global,
    outline: &mut NameScope,
    scope: &mut NameScope,
    nodes: &mut Nodes,
    records: &[RecordTy],
    numbers: Numbering,
    decl: &MethodDecl,
) -> Result<Parts, NoMemory>
    ensures parts { IfOk result (λ parts. (names : List Declared) (at : Scope) → Knows outline.old.names names → Fits scope.old at → HasFields records.now at
        → IsMade nodes.old nodes.new (parts_seen parts) (parts_in (number_in numbers) names at (method_decl_tree decl.now))) }
    ensures fits { OnOk result ((names : List Declared) (at : Scope) → Knows outline.old.names names → Fits scope.old at → HasFields records.now at
        → Fits scope.new (behind_body (contract_scope names at (method_decl_tree decl.now)) (method_decl_tree decl.now))) }
    ensures within { OnOk result (IsWithin scope.old scope.new) }
    ensures outline { OnOk result (outline.new ≡ outline.old) }
{
    let mut told = FirstFault::none();
    let found = judged_header(alloc, outline, scope, &mut told, decl)?;
    let header = made_header(alloc, outline, decl)?;
    let requires_ = all_noted(
        decl.requires_.as_slice(),
        alloc,
        scope,
        nodes,
        records,
        numbers,
        Context::Claim,
    );
    let ensures_ = all_noted(
        decl.ensures_.as_slice(),
        alloc,
        scope,
        nodes,
        records,
        numbers,
        Context::Ensures(found.ty),
    );
    let body = made_body(
        alloc,
        scope,
        nodes,
        records,
        numbers,
        decl,
        header.params.as_slice(),
    );
    parts_with(header, requires_, ensures_, body)
}

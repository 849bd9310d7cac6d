ghost use Rattle.std.specs.Prelude.{◌≡◌, ◌++◌, ◌∷◌, [], IfOk, OnOk, Ok, length, take};
ghost use Rattle.std.specs.Option.{option_map};
ghost use Rattle.slang_tree.specs.DeclTree.{method_decl_tree};
ghost use Rattle.lk_programs.specs.Program.{code_tree, code_trees, field_types};
ghost use Rattle.type_rules.specs.Meanings.{Scope};
ghost use Rattle.name_scopes.specs.Fits.{Fits};
ghost use Rattle.typed_names.specs.Fields.{HasFields};
ghost use Rattle.claim_making.specs.Parts.{FromTwo};
ghost use Rattle.method_judging.specs.Bodies.{behind_body};
ghost use Rattle.method_making.specs.Methods.{with_code};
ghost use Rattle.method_making.specs.Made.{IsBody};

use crate::NoMemory;
use crate::numbers::param_tys;
use crate::returns::{add_return, made_return};
use code_making::made_code;
use lk_claims::Ty;
use lk_programs::{Code, FieldTy, RecordTy};
use method_judging::enter_body;
use name_scopes::NameScope;
use owned_results::both;
use slang_tree::MethodDecl;
use sqlite_items::Items;
use std::alloc::Global;
use typed_names::{Nodes, Numbering};

/// The code of a method with its return, and the types of its locals.
#[derive(Drop)]
pub struct Body {
    pub locals: Items<Ty>,
    pub code: Items<Code>,
}

/// Code with a return behind it, if there is one.
fn whole_code(
    codes: Result<Items<Code>, NoMemory>,
    returned: Result<Option<Code>, NoMemory>,
) -> Result<Items<Code>, NoMemory>
    ensures { IfOk result (FromTwo codes returned (λ cs r all. code_trees all ≡ with_code (code_trees cs) (option_map code_tree r))) }
{
    let (mut codes, returned) = both(codes, returned)?;
    add_return(&mut codes, returned)?;
    Ok(codes)
}

/// A body with these locals.
fn body_with(locals: Items<Ty>, code: Result<Items<Code>, NoMemory>) -> Result<Body, NoMemory>
    ensures { IfOk result (λ body. (body.locals ≡ locals) × (code ≡ Ok body.code)) }
{
    match code {
        Err(e) => Err(e),
        Ok(code) => Ok(Body { locals, code }),
    }
}

/// The body of a method with these parameters. The scope is that of its contract, and behind it that behind the method's statements.
pub fn made_body(
    alloc: Global,
    scope: &mut NameScope,
    nodes: &mut Nodes,
    records: &[RecordTy],
    numbers: Numbering,
    decl: &MethodDecl,
    params: &[FieldTy],
) -> Result<Body, NoMemory>
    ensures made { IfOk result (λ body. (at : Scope) → Fits scope.old at → HasFields records.now at
        → IsBody numbers nodes.old nodes.new (field_types params.now) body at (method_decl_tree decl.now)) }
    ensures fits { OnOk result ((at : Scope) → Fits scope.old at → HasFields records.now at → Fits scope.new (behind_body at (method_decl_tree decl.now))) }
    ensures names { OnOk result (take (length scope.old.names) scope.new.names ≡ scope.old.names) }
    ensures outside { OnOk result (scope.new.outside ≡ scope.old.outside ++ scope.old.covered ∷ []) }
{
    enter_body(alloc, scope, decl.modifies.as_slice())?;
    let mut locals = param_tys(alloc, params)?;
    let codes = made_code(
        decl.body.as_slice(),
        alloc,
        scope,
        nodes,
        &mut locals,
        records,
        numbers,
    );
    let returned = made_return(alloc, scope, nodes, records, numbers, &decl.returned);
    body_with(locals, whole_code(codes, returned))
}

ghost use Rattle.std.specs.Prelude.{◌≡◌, ◌++◌, ◌∷◌, [], IfOk, OnOk, map};
ghost use Rattle.std.specs.Option.{option_map};
ghost use Rattle.slang_tree.specs.ExprTree.{expr_tree};
ghost use Rattle.slang_tree.specs.TypeTree.{type_tree};
ghost use Rattle.program_trees.specs.Variables.{local};
ghost use Rattle.type_rules.specs.Expressions.{judged_right};
ghost use Rattle.type_rules.specs.Meanings.{Scope};
ghost use Rattle.type_rules.specs.Statements.{declared_type};
ghost use Rattle.typed_texts.specs.Code as typed;
ghost use Rattle.text_types.specs.TextType.{text_value};
ghost use Rattle.lk_claims.specs.Claim.{value_type};
ghost use Rattle.lk_programs.specs.Program.{code_tree};
ghost use Rattle.name_scopes.specs.Fits.{Fits};
ghost use Rattle.statement_judging.specs.Declaration.{declaration};
ghost use Rattle.statement_judging.specs.Keeps.{Keeps};
ghost use Rattle.typed_names.specs.Fields.{HasFields};
ghost use Rattle.typed_names.specs.Variables.{number_in};
ghost use Rattle.target_making.specs.Made.{IsCode};

use crate::NoMemory;
use call_making::assigned;
use lk_claims::Ty;
use lk_programs::{Code, RecordTy};
use name_scopes::NameScope;
use owned_results::both;
use slang_tree::{Expr, Name, Place, TypeName};
use sqlite_items::Items;
use std::alloc::Global;
use text_types::TextType;
use type_faults::FirstFault;
use typed_names::{Nodes, Numbering, VariableKind, ty_of};
use value_judging::declared_by;

/// The type of a `val` or a `var`, where it has one.
fn type_declared(
    value: &Expr,
    alloc: Global,
    scope: &mut NameScope,
    ty: &Option<TypeName>,
) -> Result<Option<TextType>, NoMemory>
    ensures declared { IfOk result (λ type. (at : Scope) → Fits scope.old at
        → option_map text_value type ≡ declared_type at (option_map type_tree ty.now) (judged_right at (expr_tree value.now))) }
    ensures scope { OnOk result (scope.new ≡ scope.old) }
{
    let mut told = FirstFault::none();
    declared_by(value, alloc, scope, &mut told, ty)
}

/// A type as the program has it: `Unit` where there is none.
fn known_ty(alloc: Global, ty: Option<TextType>) -> Result<Ty, NoMemory>
    ensures { IfOk result (λ made. value_type made ≡ typed.type_declared (option_map text_value ty)) }
{
    match ty {
        None => Ok(Ty::Unit),
        Some(ty) => ty_of(alloc, ty),
    }
}

/// One local more of this type.
fn local_more(locals: &mut Items<Ty>, alloc: Global, ty: Option<TextType>) -> Result<(), NoMemory>
    ensures { OnOk result (map value_type locals.new ≡ map value_type locals.old ++ typed.type_declared (option_map text_value ty) ∷ []) }
{
    let ty = known_ty(alloc, ty)?;
    locals.push(ty)
}

/// The number of the local that is declared next.
fn next_local(scope: &NameScope, numbers: Numbering) -> Result<u32, NoMemory>
    ensures { IfOk result (λ n. (at : Scope) → Fits scope.now at → n ≡ number_in numbers (local at.locals)) }
{
    let number = numbers.number_of(VariableKind::Local(scope.locals))?;
    Ok(number)
}

/// A `val`, or a `var`, which changes: a local has a value from here on. Its type stands behind those of the others.
pub fn declared(
    value: &Expr,
    alloc: Global,
    scope: &mut NameScope,
    nodes: &mut Nodes,
    locals: &mut Items<Ty>,
    records: &[RecordTy],
    numbers: Numbering,
    place: Place,
    name: &Name,
    changes: bool,
    ty: &Option<TypeName>,
) -> Result<Code, NoMemory>
    ensures made { IfOk result (λ code. (at : Scope) → Fits scope.old at → HasFields records.now at
        → IsCode numbers scope.new nodes.old nodes.new locals.old locals.new (code_tree code) at
        (declaration changes place name.now (option_map type_tree ty.now) (expr_tree value.now))) }
    ensures kept { OnOk result (Keeps scope.old scope.new) }
{
    let target = next_local(scope, numbers)?;
    let ty = type_declared(value, alloc, scope, ty)?;
    local_more(locals, alloc, ty)?;
    let (code, _) = both(
        assigned(
            value, alloc, scope, nodes, records, numbers, place, true, target,
        ),
        scope.declare(alloc, name.text.as_str(), changes, ty),
    )?;
    Ok(code)
}

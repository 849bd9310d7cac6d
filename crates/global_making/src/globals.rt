ghost use Rattle.std.specs.Prelude.{◌≡◌, IfOk};
ghost use Rattle.std.specs.Option.{option_map};
ghost use Rattle.slang_tree.specs.TypeTree.{type_tree};
ghost use Rattle.slang_tree.specs.DeclTree.{const_tree, global_decl_tree};
ghost use Rattle.lk_claims.specs.Claim.{value_type};
ghost use Rattle.lk_programs.specs.Program.{global_tree};
ghost use Rattle.type_rules.specs.Meanings.{Scope};
ghost use Rattle.type_rules.specs.Constants.{judged_const};
ghost use Rattle.type_rules.specs.Statements.{declared_type};
ghost use Rattle.typed_texts.specs.Code.{type_declared};
ghost use Rattle.text_types.specs.TextType.{text_value};
ghost use Rattle.name_scopes.specs.Fits.{Fits};
ghost use Rattle.typed_names.specs.Nodes.{IsMade};
ghost use Rattle.claim_making.specs.Parts.{FromThree};
ghost use Rattle.global_making.specs.Globals.{IsGlobalOf, global_in};

use crate::NoMemory;
use constant_making::constant_of;
use lk_claims::Ty;
use lk_programs::{Expr, Global as TypedGlobal};
use name_scopes::NameScope;
use owned_results::all_three;
use slang_tree::{GlobalDecl, Text};
use std::alloc::Global;
use text_types::TextType;
use type_faults::FirstFault;
use typed_names::{Nodes, ty_of};
use value_judging::declared_constant;

/// The type of what is declared, which is `Unit` where it has none.
fn known(ty: Option<TextType>) -> TextType
    ensures { text_value result ≡ type_declared (option_map text_value ty) }
{
    match ty {
        None => TextType::Unit,
        Some(ty) => ty,
    }
}

/// The type of a global.
fn global_ty(alloc: Global, outline: &NameScope, decl: &GlobalDecl) -> Result<Ty, NoMemory>
    ensures { IfOk result (λ made. (at : Scope) → Fits outline.now at
        → value_type made ≡ type_declared (declared_type at (option_map type_tree decl.now.ty) (judged_const at (const_tree decl.now.init)))) }
{
    let mut told = FirstFault::none();
    let ty = declared_constant(&decl.init, alloc, outline, &mut told, &decl.ty)?;
    ty_of(alloc, known(ty))
}

/// A global of this name and type, with its initial value.
fn global_with(
    name: Result<Text, NoMemory>,
    fixed: bool,
    ty: Result<Ty, NoMemory>,
    init: Result<Expr, NoMemory>,
) -> Result<TypedGlobal, NoMemory>
    ensures { IfOk result (FromThree name ty init (IsGlobalOf fixed)) }
{
    let (name, ty, init) = all_three(name, ty, init)?;
    Ok(TypedGlobal {
        name,
        fixed,
        ty,
        init,
    })
}

/// The global of the program that a global stands for.
pub fn made_global(
    alloc: Global,
    outline: &NameScope,
    nodes: &mut Nodes,
    decl: &GlobalDecl,
) -> Result<TypedGlobal, NoMemory>
    ensures global { IfOk result (λ made. (at : Scope) → Fits outline.now at
        → IsMade nodes.old nodes.new (global_tree made) (global_in at (global_decl_tree decl.now))) }
    ensures name { IfOk result (λ made. made.name ≡ decl.now.name.text) }
{
    let name = decl.name.text.copy(alloc);
    let ty = global_ty(alloc, outline, decl);
    let init = constant_of(&decl.init, alloc, outline, nodes);
    global_with(name, decl.fixed, ty, init)
}

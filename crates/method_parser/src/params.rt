ghost use Rattle.std.specs.Prelude.{◌≡◌, ◌<◌, ◌≤◌, List, [], ◌∷◌, ◌++◌, map, length, IfOk, IfErr, OnOk, false};
ghost use Rattle.slang_lexer.specs.declared.token.TokenKind.TheVariants as kind;
ghost use Rattle.slang_tree.specs.declared.expression.Name.{Name as TheName};
ghost use Rattle.slang_tree.specs.TypeTree.{type_tree};
ghost use Rattle.slang_tree.specs.DeclTree.{TypedName, DeclTree, param_tree};
ghost use Rattle.slang_machine.specs.Open.{AroundType};
ghost use Rattle.slang_machine.specs.States.{State, want_type, params_due, param_or_end, param_end, result_colon};
ghost use Rattle.slang_machine.specs.Declarations.{end_type};
ghost use Rattle.token_cursor.specs.Gives.{ahead, IfRefused, Moves, Refuses, Expects, ExpectsName};
ghost use Rattle.token_cursor.specs.Lists.{begins};
ghost use Rattle.method_parser.specs.Expects.{LeadsToType};

use expression_parser::beside;
use slang_lexer::TokenKind;
use slang_tree::{Name, Param, TypeName};
use sqlite_items::Items;
use std::alloc::Global;
use token_cursor::{Cursor, Stop, kept, name, type_name};

/// A colon, which is due, and a type.
pub fn colon_type(alloc: Global, tokens: &mut Cursor<'_, '_>) -> Result<TypeName, Stop>
    ensures reads { IfOk result (λ ty. (from : State) (inner : AroundType) → Expects kind.Colon (ahead tokens.old) from (want_type inner)
        → Moves tokens.old from tokens.new (end_type (type_tree ty) inner)) }
    ensures shorter { OnOk result (length (ahead tokens.new) < length (ahead tokens.old)) }
    ensures refused { IfErr result (λ stop. IfRefused stop (λ due. (from : State) (inner : AroundType) → Expects kind.Colon (ahead tokens.old) from (want_type inner)
        → Refuses tokens.old from tokens.new due)) }
{
    tokens.expect(TokenKind::Colon)?;
    type_name(alloc, tokens)
}

/// A name, which is due, and its type behind a colon.
pub fn typed_name(alloc: Global, tokens: &mut Cursor<'_, '_>) -> Result<(Name, TypeName), Stop>
    ensures reads { IfOk result (λ read. (from : State) (to : TheName → State) (inner : TheName → AroundType) → ExpectsName (ahead tokens.old) from to → LeadsToType to inner
        → Moves tokens.old from tokens.new (end_type (type_tree read.1) (inner read.0))) }
    ensures shorter { OnOk result (length (ahead tokens.new) < length (ahead tokens.old)) }
    ensures refused { IfErr result (λ stop. IfRefused stop (λ due. (from : State) (to : TheName → State) (inner : TheName → AroundType) → ExpectsName (ahead tokens.old) from to → LeadsToType to inner
        → Refuses tokens.old from tokens.new due)) }
{
    let name = name(alloc, tokens)?;
    beside(name, colon_type(alloc, tokens))
}

/// A parameter, which is due.
fn param(alloc: Global, tokens: &mut Cursor<'_, '_>) -> Result<Param, Stop>
    ensures reads { IfOk result (λ param. (written : TheName) (params : List TypedName) (done : List DeclTree) → begins kind.RightParen (ahead tokens.old) ≡ false
        → Moves tokens.old (param_or_end written params done) tokens.new (param_end written (params ++ param_tree param ∷ []) done)) }
    ensures shorter { OnOk result (length (ahead tokens.new) < length (ahead tokens.old)) }
    ensures refused { IfErr result (λ stop. IfRefused stop (λ due. (written : TheName) (params : List TypedName) (done : List DeclTree) → begins kind.RightParen (ahead tokens.old) ≡ false
        → Refuses tokens.old (param_or_end written params done) tokens.new due)) }
{
    let (name, ty) = typed_name(alloc, tokens)?;
    Ok(Param { name, ty })
}

/// Parameters in round brackets.
pub fn params(alloc: Global, tokens: &mut Cursor<'_, '_>) -> Result<Items<Param>, Stop>
    ensures reads { IfOk result (λ params. (written : TheName) (done : List DeclTree) → Moves tokens.old (params_due written done) tokens.new (result_colon written (map param_tree params) done)) }
    ensures shorter { OnOk result (length (ahead tokens.new) < length (ahead tokens.old)) }
    ensures refused { IfErr result (λ stop. IfRefused stop (λ due. (written : TheName) (done : List DeclTree) → Refuses tokens.old (params_due written done) tokens.new due)) }
{
    tokens.expect(TokenKind::LeftParen)?;
    let mut list = Items::new(alloc);
    let end = add_params(alloc, &mut list, tokens);
    kept(list, end)
}

/// Adds the parameters of a list, up to its closing bracket.
fn add_params(
    alloc: Global,
    list: &mut Items<Param>,
    tokens: &mut Cursor<'_, '_>,
) -> Result<(), Stop>
    ensures reads { OnOk result ((written : TheName) (done : List DeclTree) →
        Moves tokens.old (param_or_end written (map param_tree list.old) done) tokens.new (result_colon written (map param_tree list.new) done)) }
    ensures no_longer { OnOk result (length (ahead tokens.new) ≤ length (ahead tokens.old)) }
    ensures refused { IfErr result (λ stop. IfRefused stop (λ due. (written : TheName) (done : List DeclTree) → Refuses tokens.old (param_or_end written (map param_tree list.old) done) tokens.new due)) }
{
    let mut more = !tokens.take(TokenKind::RightParen);
    'params: while more {
        let member = param(alloc, tokens)?;
        list.push(member)?;
        more = tokens.goes_on(TokenKind::Comma, TokenKind::RightParen)?;
    }
    Ok(())
}

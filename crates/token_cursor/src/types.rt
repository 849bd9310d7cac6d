ghost use Rattle.std.specs.Prelude.{◌≡◌, ◌<◌, ◌≤◌, false, length, IfOk, IfErr, IfNone, OnOk};
ghost use Rattle.std.specs.Option.{option_map};
ghost use Rattle.slang_lexer.specs.declared.token.TokenKind.TheVariants as kind;
ghost use Rattle.slang_tree.specs.declared.expression.TypeName.{TypeName as TheType};
ghost use Rattle.slang_tree.specs.TypeTree.{TypeTree, type_tree, sequence_name};
ghost use Rattle.slang_tokens.specs.Tok.{tok};
ghost use Rattle.slang_machine.specs.Open.{AroundType};
ghost use Rattle.slang_machine.specs.States.{State, want_type};
ghost use Rattle.slang_machine.specs.Expressions.{type_of};
ghost use Rattle.slang_machine.specs.Declarations.{end_type};
ghost use Rattle.token_cursor.specs.Gives.{ahead, IfRefused, Moves, Refuses, Expects};
ghost use Rattle.token_cursor.specs.Lists.{begins};
ghost use Rattle.token_cursor.specs.Types.{ClosesType, BeginsType, optional_state};

use crate::cursor::{Cursor, is};
use crate::stop::{Due, Stop, kept};
use crate::words::{is_name, name_of};
use slang_lexer::TokenKind;
use slang_tokens::Lexeme;
use slang_tree::{Place, TypeName};
use sqlite_items::Boxed;
use std::alloc::{AllocError, Global};

/// The type that a token is by itself.
fn type_of(alloc: Global, token: &Lexeme<'_>) -> Result<Option<TypeName>, AllocError>
    ensures { IfOk result (λ ty. option_map type_tree ty ≡ type_of (tok token.now)) }
{
    if is(TokenKind::TypeZ, token) {
        return Ok(Some(TypeName::Z(token.place)));
    }
    if is(TokenKind::TypeB, token) {
        return Ok(Some(TypeName::B(token.place)));
    }
    if is(TokenKind::TypeUnit, token) {
        return Ok(Some(TypeName::Unit(token.place)));
    }
    if is_name(token) {
        return Ok(Some(TypeName::Named(name_of(alloc, token)?)));
    }
    Ok(None)
}

/// A sequence of elements of that type.
fn sequence_of(
    alloc: Global,
    place: Place,
    element: Result<TypeName, Stop>,
) -> Result<TypeName, Stop>
    ensures made { IfOk result (λ ty. (inner : TheType) × (element ≡ Ok inner) × (type_tree ty ≡ sequence_name place (type_tree inner))) }
    ensures refused { IfErr result (λ stop. IfRefused stop (λ due. element ≡ Err stop)) }
{
    let element = Boxed::new(alloc, element?)?;
    Ok(TypeName::Seq(place, element))
}

/// A type, which is due.
#[cycle(types)]
pub fn type_name(alloc: Global, tokens: &mut Cursor<'_, '_>) -> Result<TypeName, Stop>
    ensures reads { IfOk result (λ ty. (around : AroundType) → Moves tokens.old (want_type around) tokens.new (end_type (type_tree ty) around)) }
    ensures shorter { OnOk result (length (ahead tokens.new) < length (ahead tokens.old)) }
    ensures refused { IfErr result (λ stop. IfRefused stop (λ due. (around : AroundType) → Refuses tokens.old (want_type around) tokens.new due)) }
{
    let Some(token) = tokens.first() else {
        return Err(Stop::Refused(Due::Other));
    };
    if is(TokenKind::TypeIsz, token) {
        tokens.advance();
        return sequence_of(alloc, token.place, bracketed_type(alloc, tokens));
    }
    let Some(ty) = type_of(alloc, token)? else {
        return Err(Stop::Refused(Due::Other));
    };
    tokens.advance();
    Ok(ty)
}

/// A type in square brackets, which is due.
#[cycle(types)]
fn bracketed_type(alloc: Global, tokens: &mut Cursor<'_, '_>) -> Result<TypeName, Stop>
    ensures reads { IfOk result (λ ty. (from : State) (inner : AroundType) (to : TypeTree → State) → Expects kind.LeftBracket (ahead tokens.old) from (want_type inner)
        → ClosesType inner to → Moves tokens.old from tokens.new (to (type_tree ty))) }
    ensures shorter { OnOk result (length (ahead tokens.new) < length (ahead tokens.old)) }
    ensures refused { IfErr result (λ stop. IfRefused stop (λ due. (from : State) (inner : AroundType) (to : TypeTree → State) →
        Expects kind.LeftBracket (ahead tokens.old) from (want_type inner) → ClosesType inner to → Refuses tokens.old from tokens.new due)) }
{
    tokens.expect(TokenKind::LeftBracket)?;
    let ty = type_name(alloc, tokens)?;
    kept(ty, tokens.expect(TokenKind::RightBracket))
}

/// A type in square brackets, which may be left out.
pub fn element_type(alloc: Global, tokens: &mut Cursor<'_, '_>) -> Result<Option<TypeName>, Stop>
    ensures reads { IfOk result (λ ty. (from : State) (inner : AroundType) (to : TypeTree → State) → BeginsType kind.LeftBracket from inner
        → ClosesType inner to → Moves tokens.old from tokens.new (optional_state from to (option_map type_tree ty))) }
    ensures absent { IfOk result (λ ty. IfNone ty (begins kind.LeftBracket (ahead tokens.new) ≡ false)) }
    ensures no_longer { OnOk result (length (ahead tokens.new) ≤ length (ahead tokens.old)) }
    ensures refused { IfErr result (λ stop. IfRefused stop (λ due. (from : State) (inner : AroundType) (to : TypeTree → State) →
        BeginsType kind.LeftBracket from inner → ClosesType inner to → Refuses tokens.old from tokens.new due)) }
{
    if !tokens.is_at(TokenKind::LeftBracket) {
        return Ok(None);
    }
    Ok(Some(bracketed_type(alloc, tokens)?))
}

/// A colon and a type, which may be left out.
pub fn optional_type(alloc: Global, tokens: &mut Cursor<'_, '_>) -> Result<Option<TypeName>, Stop>
    ensures reads { IfOk result (λ ty. (from : State) (inner : AroundType) → BeginsType kind.Colon from inner
        → Moves tokens.old from tokens.new (optional_state from (λ tree. end_type tree inner) (option_map type_tree ty))) }
    ensures absent { IfOk result (λ ty. IfNone ty (begins kind.Colon (ahead tokens.new) ≡ false)) }
    ensures no_longer { OnOk result (length (ahead tokens.new) ≤ length (ahead tokens.old)) }
    ensures refused { IfErr result (λ stop. IfRefused stop (λ due. (from : State) (inner : AroundType) →
        BeginsType kind.Colon from inner → Refuses tokens.old from tokens.new due)) }
{
    if !tokens.take(TokenKind::Colon) {
        return Ok(None);
    }
    Ok(Some(type_name(alloc, tokens)?))
}

ghost use Rattle.std.specs.Prelude.{◌≡◌, ◌<◌, length, pos, IfOk, IfErr, OnOk};
ghost use Rattle.slang_lexer.specs.Next.{value_of};
ghost use Rattle.slang_tokens.specs.Tok.{tok};
ghost use Rattle.slang_tree.specs.declared.expression.Name.{Name as TheName};
ghost use Rattle.slang_machine.specs.States.{State};
ghost use Rattle.slang_machine.specs.Expressions.{is_name, name_of, is_number_token, on};
ghost use Rattle.token_cursor.specs.Gives.{ahead, IfRefused, Moves, Refuses, ExpectsName};

use crate::cursor::{Cursor, is};
use crate::stop::{Due, Stop};
use slang_lexer::{TokenKind, number_value};
use slang_tokens::Lexeme;
use slang_tree::{Name, Text};
use std::alloc::{AllocError, Global};

/// Whether the token is a name that a declaration may have.
pub fn is_name(token: &Lexeme<'_>) -> bool
    ensures { result ≡ is_name (tok token.now) }
{
    token.kind == TokenKind::Name && token.text != "_"
}

/// The name that a token is.
pub fn name_of(alloc: Global, token: &Lexeme<'_>) -> Result<Name, AllocError>
    ensures { IfOk result (λ name. name ≡ name_of (tok token.now)) }
{
    Ok(Name {
        text: Text::from_str(alloc, token.text)?,
        place: token.place,
    })
}

/// The number that a token is.
pub fn number_of(token: &Lexeme<'_>) -> Option<i128>
    ensures { result ≡ on (is_number_token (tok token.now)) (pos (value_of token.now.text.now)) }
{
    if !is(TokenKind::Number, token) {
        return None;
    }
    number_value(token.text)
}

/// A name, which is due.
pub fn name(alloc: Global, tokens: &mut Cursor<'_, '_>) -> Result<Name, Stop>
    ensures reads { IfOk result (λ name. (from : State) (to : TheName → State) → ExpectsName (ahead tokens.old) from to → Moves tokens.old from tokens.new (to name)) }
    ensures shorter { OnOk result (length (ahead tokens.new) < length (ahead tokens.old)) }
    ensures refused { IfErr result (λ stop. IfRefused stop (λ due. (from : State) (to : TheName → State) → ExpectsName (ahead tokens.old) from to → Refuses tokens.old from tokens.new due)) }
{
    let Some(token) = tokens.first() else {
        return Err(Stop::Refused(Due::Other));
    };
    if !is_name(token) {
        return Err(Stop::Refused(Due::Other));
    }
    tokens.advance();
    Ok(name_of(alloc, token)?)
}

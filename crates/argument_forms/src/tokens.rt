ghost use Rattle.std.specs.Prelude.{◌≡◌};
ghost use Rattle.slang_tokens.specs.Tok.{tok, same_kind};
ghost use Rattle.slang_grammar.specs.Parts.{is_plain};
ghost use Rattle.argument_forms.specs.Machine.{is_sign, is_name, is_digits, is_digits_below_zero};

use crate::numbers::{is_below_zero, is_numeral};
use slang_lexer::TokenKind;
use slang_tokens::Lexeme;

/// Whether the token is of this kind.
fn is(kind: TokenKind, token: &Lexeme<'_>) -> bool
    ensures { result ≡ same_kind token.now.kind kind }
{
    token.kind == kind
}

/// Whether the token is the sign of this kind.
pub(crate) fn is_sign(kind: TokenKind, token: &Lexeme<'_>) -> bool
    ensures { result ≡ is_sign kind (tok token.now) }
{
    if is(kind, token) {
        token.text.is_empty()
    } else {
        false
    }
}

/// Whether the token is a name that is not `_`.
pub(crate) fn is_name(token: &Lexeme<'_>) -> bool
    ensures { result ≡ is_name (tok token.now) }
{
    if is(TokenKind::Name, token) {
        is_plain(token.text)
    } else {
        false
    }
}

fn is_plain(name: &str) -> bool
    ensures { result ≡ is_plain name.now }
{
    name != "_"
}

/// Whether the token is digits of a number below 2^127.
pub(crate) fn is_digits(token: &Lexeme<'_>) -> bool
    ensures { result ≡ is_digits (tok token.now) }
{
    if is(TokenKind::Number, token) {
        is_numeral(token.text)
    } else {
        false
    }
}

/// Whether the token is digits that may stand behind a minus.
pub(crate) fn is_digits_below_zero(token: &Lexeme<'_>) -> bool
    ensures { result ≡ is_digits_below_zero (tok token.now) }
{
    if is(TokenKind::Number, token) {
        is_below_zero(token.text)
    } else {
        false
    }
}

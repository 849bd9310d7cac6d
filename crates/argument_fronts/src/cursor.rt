ghost use Rattle.std.specs.Prelude.{◌≡◌, ◌<◌, length, IfSome};
ghost use Rattle.slang_tokens.specs.Tok.{tok, toks, same_kind};
ghost use Rattle.argument_fronts.specs.Only.{IsOnly};
ghost use Rattle.argument_fronts.specs.Cursor.{tokens_in, StandBehindSign, front_of, IsFrontOf};

use slang_lexer::TokenKind;
use slang_tokens::Lexeme;

/// Whether the token is of this kind.
fn is(kind: TokenKind, token: &Lexeme<'_>) -> bool
    ensures { result ≡ same_kind token.now.kind kind }
{
    token.kind == kind
}

/// The tokens behind a sign of this kind, where one stands in front.
pub fn behind_sign<'t, 'a>(kind: TokenKind, tokens: &'t [Lexeme<'a>]) -> Option<&'t [Lexeme<'a>]>
    ensures only { IsOnly tokens_in (StandBehindSign kind (toks tokens.now)) result }
    ensures shorter { IfSome result (λ rest. length rest.now < length tokens.now) }
{
    match tokens.split_first() {
        None => None,
        Some((first, rest)) => {
            if is(kind, first) {
                if first.text.is_empty() {
                    Some(rest)
                } else {
                    None
                }
            } else {
                None
            }
        }
    }
}

/// The text of a token, and what stands behind it.
#[derive(Clone, Copy)]
pub struct Written<'t, 'a> {
    pub text: &'a str,
    pub rest: &'t [Lexeme<'a>],
}

/// The text of a token of this kind and the tokens behind it, where one stands in front.
pub fn behind_text<'t, 'a>(kind: TokenKind, tokens: &'t [Lexeme<'a>]) -> Option<Written<'t, 'a>>
    ensures only { IsOnly front_of (IsFrontOf kind (toks tokens.now)) result }
    ensures shorter { IfSome result (λ written. length written.rest.now < length tokens.now) }
{
    match tokens.split_first() {
        None => None,
        Some((first, rest)) => {
            if is(kind, first) {
                Some(Written {
                    text: first.text,
                    rest,
                })
            } else {
                None
            }
        }
    }
}

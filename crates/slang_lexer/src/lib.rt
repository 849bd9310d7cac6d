//! The tokens of a Slang text.
#![tactic(auto)]

mod blanks;
mod scan;
mod tables;
mod token;

ghost use Rattle.std.specs.Prelude.{◌≡◌, ◌<◌, ◌≤◌, ◌^◌, IfOk, IfErr, IfSome, IfNone, MatchBool, pos};
ghost use Rattle.std.specs.Str.{IsCharBoundary};
ghost use Rattle.std.specs.Option.{SomeIff};
ghost use Rattle.slang_lexer.specs.Spelling.{IsNumber};
ghost use Rattle.slang_lexer.specs.Next.{IsNext, IsLexFault, IsLongest, NoneEndsBehind, IsTokenPlace, IsFaultPlace, IsWithinLimit, bytes_of, value_of, NextIsOne, FaultIsOne, NextIsNoFault, NextIsSpelled};

use blanks::past_blanks;
use scan::{digits_len, longest};
pub use token::{BAD_CHARACTER, LexFault, NUMBER_TOO_LARGE, Token, TokenKind};

/// The value of decimal digits, where there are some and it is at most 2^127 - 1.
pub fn number_value(digits: &str) -> Option<i128>
    ensures { SomeIff result (IsNumber digits.now × IsWithinLimit digits.now) (pos (value_of digits.now)) }
{
    // `parse` takes a sign too.
    if digits_len(digits.as_bytes()) == 0 {
        None
    } else {
        digits.parse().ok()
    }
}

/// The longest token that begins at `start`.
fn token_at(text: &str, start: usize) -> Option<Token>
    requires { IsCharBoundary text.now start }
    ensures begins { IfSome result (λ token. token.start ≡ start) }
    ensures longest { IfSome result (IsLongest text.now) }
    ensures cuts { IfSome result (λ token. IsCharBoundary text.now token.end) }
    ensures none { IfNone result (NoneEndsBehind text.now start start) }
{
    let (kind, len) = longest(&text[start..])?;
    Some(Token {
        kind,
        start,
        end: start + len,
    })
}

/// Whether the token is a number above 2^127 - 1.
fn is_too_large(text: &str, token: Token) -> bool
    requires longest { IsLongest text.now token }
    requires cuts_start { IsCharBoundary text.now token.start }
    requires cuts_end { IsCharBoundary text.now token.end }
    ensures { MatchBool result ((token.kind ≡ TokenKind.Number) × (2 ^ 127 ≤ value_of (bytes_of text.now token)))
        (token.kind ≡ TokenKind.Number → IsWithinLimit (bytes_of text.now token)) }
{
    match token.kind {
        TokenKind::Number => number_value(&text[token.start..token.end]).is_none(),
        _ => false,
    }
}

/// The longest token at or after `at`, past blanks and comments, and `TokenKind::End` at the end of the text. `at` lies
/// between two characters. An error is what stands there in a token's place: a character that begins none, a comment
/// that never ends, or a number above 2^127 - 1.
pub fn next_token(text: &str, at: usize) -> Result<Token, LexFault>
    requires { IsCharBoundary text.now at }
    ensures found { IfOk result (IsNext text.now at) }
    ensures place { IfOk result (IsTokenPlace text.now at) }
    ensures fault { IfErr result (IsLexFault text.now at) }
    ensures fault_place { IfErr result (IsFaultPlace text.now at) }
{
    let start = past_blanks(text, at)?;
    if start == text.len() {
        return Ok(Token {
            kind: TokenKind::End,
            start,
            end: start,
        });
    }
    match token_at(text, start) {
        None => Err(LexFault {
            code: BAD_CHARACTER,
            at: start,
        }),
        Some(token) if is_too_large(text, token) => Err(LexFault {
            code: NUMBER_TOO_LARGE,
            at: start,
        }),
        Some(token) => Ok(token),
    }
}

/// A law: from one place in a text, one token stands next.
pub fn next_is_one()
    ensures { NextIsOne }
{}

/// A law: from one place in a text, one fault stands next.
pub fn fault_is_one()
    ensures { FaultIsOne }
{}

/// A law: where a token stands next, no fault does.
pub fn next_is_no_fault()
    ensures { NextIsNoFault }
{}

/// A law: what stands next is spelled as its kind is.
pub fn next_is_spelled()
    ensures { NextIsSpelled }
{}

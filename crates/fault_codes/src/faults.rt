ghost use Rattle.std.specs.Prelude.{◌≡◌, ℕ, List, [], Bool, Some};
ghost use Rattle.slang_tree.specs.DeclTree.{DeclTree};
ghost use Rattle.slang_tokens.specs.declared.read.TokensEnd.TheVariants as tokens_end;
ghost use Rattle.slang_tokens.specs.Tok.{toks};
ghost use Rattle.slang_tokens.specs.Tokens.{AreTokens};
ghost use Rattle.slang_grammar.specs.Faults.{ends_with_at, told_bad};
ghost use Rattle.slang_machine.specs.States.{top};
ghost use Rattle.token_cursor.specs.Outcome.{outcome, read, stuck};
ghost use Rattle.first_faults.specs.Stops.{stop};
ghost use Rattle.fault_codes.specs.Codes.{is_left_out_where, code_where, fault_where, fault_left};

use crate::kinds::{is_word, last_at, open_braces};
use slang_lexer::{NUMBER_TOO_LARGE, TokenKind};
use slang_tokens::{Lexeme, TokensEnd};
use slang_tree::{Fault, Place};
use token_cursor::Due;

/// The code of a token that is not expected.
const UNEXPECTED: u8 = 4;

/// The code of a loop without an invariant.
const NO_INVARIANT: u8 = 13;

/// The code of a form that the language leaves out.
const LEFT_OUT: u8 = 14;

/// Whether a token of this kind is of a form that the language leaves out, behind that front, where this may come.
fn is_left_out(due: Due, front: &[Lexeme<'_>], kind: TokenKind) -> bool
    ensures { result ≡ is_left_out_where due (toks front.now) kind }
{
    kind.is_left_out()
        || kind == TokenKind::Class
        || last_at(front).is_some()
        || (kind == TokenKind::If && due == Due::Operand)
        || (kind == TokenKind::Return && open_braces(front) >= 2)
}

/// The code of a token of this kind that is refused behind that front, where this may come.
fn code(due: Due, front: &[Lexeme<'_>], kind: TokenKind) -> u8
    ensures { result ≡ code_where due (toks front.now) kind }
{
    if kind == TokenKind::Number && due == Due::Label {
        return NUMBER_TOO_LARGE;
    }
    if due == Due::Invariant {
        return NO_INVARIANT;
    }
    if is_left_out(due, front, kind) {
        LEFT_OUT
    } else {
        UNEXPECTED
    }
}

/// The fault where a token of this kind, at this place, is refused behind that front. An `@` that no word follows is
/// itself unexpected.
fn told(due: Due, front: &[Lexeme<'_>], kind: TokenKind, place: Place) -> Fault
    ensures { result ≡ fault_where due (toks front.now) kind place }
{
    match last_at(front) {
        Some(place) if !is_word(kind) => Fault {
            code: UNEXPECTED,
            place,
        },
        _ => Fault {
            code: code(due, front, kind),
            place,
        },
    }
}

/// The fault where what follows that front is no token.
fn told_bad(front: &[Lexeme<'_>], bad: Fault) -> Fault
    ensures { result ≡ told_bad (toks front.now) bad }
{
    match last_at(front) {
        Some(place) => Fault {
            code: UNEXPECTED,
            place,
        },
        None => bad,
    }
}

/// The fault behind that front, where these tokens are left.
fn left(front: &[Lexeme<'_>], rest: &[Lexeme<'_>], end: TokensEnd, due: Due) -> Fault
    ensures { result ≡ fault_left (toks front.now) (toks rest.now) end due }
{
    match rest {
        [token, ..] => told(due, front, token.kind, token.place),
        [] => match end {
            TokensEnd::End(place) => told(due, front, TokenKind::End, place),
            TokensEnd::Fault(bad) => told_bad(front, bad),
        },
    }
}

/// The first fault of the tokens of a text that are refused where these are left, and where this may come.
pub fn first_fault(tokens: &[Lexeme<'_>], end: TokensEnd, rest: &[Lexeme<'_>], due: Due) -> Fault
    ensures { (bytes : List ℕ) → AreTokens bytes (toks tokens.now) end → outcome (top []) (toks tokens.now) ≡ stuck (toks rest.now) due
        → stop (top []) [] (toks tokens.now) end ≡ Some result }
{
    let front = &tokens[..tokens.len().saturating_sub(rest.len())];
    left(front, rest, end, due)
}

/// The first fault of tokens that would be a text if they went up to its end.
pub fn bad_fault(tokens: &[Lexeme<'_>], bad: Fault) -> Fault
    ensures { (file : List DeclTree) → outcome (top []) (toks tokens.now) ≡ read file → stop (top []) [] (toks tokens.now) (tokens_end.Fault bad) ≡ Some result }
{
    told_bad(tokens, bad)
}

ghost use Rattle.std.specs.Prelude.{◌≡◌, ◌<◌, length, IfOk, IfErr, OnOk};
ghost use Rattle.slang_tokens.specs.Tok.{tok};
ghost use Rattle.slang_machine.specs.Open.{Around};
ghost use Rattle.slang_machine.specs.States.{want};
ghost use Rattle.token_cursor.specs.Outcome.{outcome};
ghost use Rattle.token_cursor.specs.Gives.{ahead, IfRefused, Refuses};
ghost use Rattle.expression_parser.specs.Begins.{word_of, begin_of, behind_begin};

use slang_grammar::Prefix;
use slang_lexer::TokenKind;
use slang_tokens::Lexeme;
use slang_values::Quantifier;
use token_cursor::{Cursor, Due, Stop, is, is_name, number_of};

/// What a token begins where an operand is due, but for a prefix.
#[derive(Clone, Copy)]
pub enum Head {
    Number(i128),
    True,
    False,
    Name,
    Quantifier(Quantifier),
    /// `In`.
    Entry,
    /// `Old`.
    Old,
    /// `Res`.
    Result,
    /// `ISZ`.
    Sequence,
    /// `(`.
    Bracket,
}

/// What a token begins where an operand is due.
#[derive(Clone, Copy)]
pub enum Beginning {
    Prefix(Prefix),
    Head(Head),
}

/// What the word or bracket of an operand begins.
fn word_of(token: &Lexeme<'_>) -> Option<Head>
    ensures { result ≡ word_of (tok token.now) }
{
    if is(TokenKind::All, token) || is(TokenKind::ForAllSign, token) {
        return Some(Head::Quantifier(Quantifier::All));
    }
    if is(TokenKind::Exists, token) || is(TokenKind::ExistsSign, token) {
        return Some(Head::Quantifier(Quantifier::Exists));
    }
    if is(TokenKind::In, token) {
        return Some(Head::Entry);
    }
    if is(TokenKind::Old, token) {
        return Some(Head::Old);
    }
    if is(TokenKind::Res, token) {
        return Some(Head::Result);
    }
    if is(TokenKind::TypeIsz, token) {
        return Some(Head::Sequence);
    }
    if is(TokenKind::LeftParen, token) {
        return Some(Head::Bracket);
    }
    None
}

/// What the token begins.
fn begin_of(token: &Lexeme<'_>) -> Option<Beginning>
    ensures { result ≡ begin_of (tok token.now) }
{
    if is(TokenKind::True, token) {
        return Some(Beginning::Head(Head::True));
    }
    if is(TokenKind::False, token) {
        return Some(Beginning::Head(Head::False));
    }
    if is_name(token) {
        return Some(Beginning::Head(Head::Name));
    }
    if let Some(value) = number_of(token) {
        return Some(Beginning::Head(Head::Number(value)));
    }
    if is(TokenKind::Bang, token) {
        return Some(Beginning::Prefix(Prefix::Not));
    }
    if is(TokenKind::Minus, token) {
        return Some(Beginning::Prefix(Prefix::Minus));
    }
    match word_of(token) {
        Some(head) => Some(Beginning::Head(head)),
        None => None,
    }
}

/// Goes behind the token that begins an operand, which is due, and tells what it begins.
pub fn begin<'t, 'a>(tokens: &mut Cursor<'t, 'a>) -> Result<(Beginning, &'t Lexeme<'a>), Stop>
    ensures reads { IfOk result (λ r. (around : Around) → outcome (want around) (ahead tokens.old) ≡ outcome (behind_begin around (tok r.1.now) r.0) (ahead tokens.new)) }
    ensures shorter { OnOk result (length (ahead tokens.new) < length (ahead tokens.old)) }
    ensures refused { IfErr result (λ stop. IfRefused stop (λ due. (around : Around) → Refuses tokens.old (want around) tokens.new due)) }
{
    let Some(token) = tokens.first() else {
        return Err(Stop::Refused(Due::Operand));
    };
    let Some(begin) = begin_of(token) else {
        return Err(Stop::Refused(Due::Operand));
    };
    tokens.advance();
    Ok((begin, token))
}

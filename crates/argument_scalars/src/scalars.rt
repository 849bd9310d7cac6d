ghost use Rattle.std.specs.Prelude.{ℕ, List, ◌<◌, length, IfSome};
ghost use Rattle.slang_tokens.specs.Tok.{toks};
ghost use Rattle.slang_values.specs.Value.{Records, number_type, truth_type};
ghost use Rattle.argument_fronts.specs.Only.{IsOnly};
ghost use Rattle.argument_scalars.specs.Fronts.{value_front, IsValueFront};

use argument_fronts::{behind_sign, number_at};
use run_values::Value;
use slang_lexer::TokenKind;
use slang_tokens::Lexeme;

/// A value, and the tokens behind its text.
#[derive(Drop)]
pub struct Read<'t, 'a> {
    pub value: Value,
    pub rest: &'t [Lexeme<'a>],
}

/// The number that stands in front, digits or a minus and digits, as a value.
pub fn number_read<'t, 'a>(tokens: &'t [Lexeme<'a>]) -> Option<Read<'t, 'a>>
    ensures only { (names : List (List ℕ)) (records : Records) → IsOnly value_front (IsValueFront names records number_type (toks tokens.now)) result }
    ensures shorter { IfSome result (λ read. length read.rest.now < length tokens.now) }
{
    match number_at(tokens) {
        None => None,
        Some(read) => Some(Read {
            value: Value::Z(read.number),
            rest: read.rest,
        }),
    }
}

/// The truth value that stands in front, `T` or `F`.
pub fn truth_read<'t, 'a>(tokens: &'t [Lexeme<'a>]) -> Option<Read<'t, 'a>>
    ensures only { (names : List (List ℕ)) (records : Records) → IsOnly value_front (IsValueFront names records truth_type (toks tokens.now)) result }
    ensures shorter { IfSome result (λ read. length read.rest.now < length tokens.now) }
{
    match behind_sign(TokenKind::True, tokens) {
        Some(rest) => Some(Read {
            value: Value::B(true),
            rest,
        }),
        None => match behind_sign(TokenKind::False, tokens) {
            None => None,
            Some(rest) => Some(Read {
                value: Value::B(false),
                rest,
            }),
        },
    }
}

ghost use Rattle.std.specs.Prelude.{◌≡◌, ◌≤◌, ◌<◌, ◌^◌, ◌==◌, neg_ℤ, pos, length, slice_index, IfSome, IsTrue};
ghost use Rattle.std.specs.Option.{SomeIff};
ghost use Rattle.slang_lexer.specs.Next.{value_of as plain_value_of};
ghost use Rattle.slang_tokens.specs.Tok.{toks};
ghost use Rattle.argument_rules.specs.Arguments.{is_below_zero};
ghost use Rattle.argument_fronts.specs.Only.{IsOnly};
ghost use Rattle.argument_fronts.specs.Numbers.{number_front, IsNumberFront, IsBelowFront};

use crate::cursor::{behind_sign, behind_text};
use slang_lexer::{TokenKind, number_value};
use slang_tokens::Lexeme;

/// A number, and the tokens behind it.
#[derive(Clone, Copy)]
pub struct Number<'t, 'a> {
    pub number: i128,
    pub rest: &'t [Lexeme<'a>],
}

/// The number that stands in front: digits, or a minus and digits.
pub fn number_at<'t, 'a>(tokens: &'t [Lexeme<'a>]) -> Option<Number<'t, 'a>>
    ensures only { IsOnly number_front (IsNumberFront (toks tokens.now)) result }
    ensures shorter { IfSome result (λ read. length read.rest.now < length tokens.now) }
{
    match behind_sign(TokenKind::Minus, tokens) {
        Some(rest) => below_at(rest),
        None => match behind_text(TokenKind::Number, tokens) {
            None => None,
            Some(digits) => match number_value(digits.text) {
                None => None,
                Some(number) => Some(Number {
                    number,
                    rest: digits.rest,
                }),
            },
        },
    }
}

/// The number whose digits stand in front, behind a minus.
fn below_at<'t, 'a>(tokens: &'t [Lexeme<'a>]) -> Option<Number<'t, 'a>>
    ensures only { IsOnly number_front (IsBelowFront (toks tokens.now)) result }
    ensures shorter { IfSome result (λ read. length read.rest.now < length tokens.now) }
{
    match behind_text(TokenKind::Number, tokens) {
        None => None,
        Some(digits) => match below_zero(digits.text) {
            None => None,
            Some(number) => Some(Number {
                number,
                rest: digits.rest,
            }),
        },
    }
}

/// The number below zero of these digits, where it is not below -2^127.
fn below_zero(digits: &str) -> Option<i128>
    ensures { SomeIff result (IsTrue (is_below_zero digits.now)) (neg_ℤ (pos (plain_value_of digits.now))) }
{
    if begins_with_plus(digits.as_bytes()) {
        return None;
    }
    match digits.parse::<u128>() {
        Err(_) => None,
        Ok(number) => negated(number),
    }
}

fn begins_with_plus(bytes: &[u8]) -> bool
    ensures { result ≡ (slice_index bytes.now 0 == 43) }
{
    if bytes.is_empty() {
        false
    } else {
        bytes[0] == b'+'
    }
}

fn negated(number: u128) -> Option<i128>
    ensures { SomeIff result (number ≤ 2 ^ 127) (neg_ℤ (pos number)) }
{
    if number < 1 << 127 {
        Some(-(number as i128))
    } else if number == 1 << 127 {
        Some(i128::MIN)
    } else {
        None
    }
}

ghost use Rattle.std.specs.Prelude.{◌≡◌, ◌<◌, length, IfSome};
ghost use Rattle.slang_tokens.specs.Tok.{toks};
ghost use Rattle.lk_claims.specs.Claim.{value_type};
ghost use Rattle.lk_programs.specs.Program.{record_types};
ghost use Rattle.argument_fronts.specs.Only.{IsOnly};
ghost use Rattle.argument_fronts.specs.Types.{names_of};
ghost use Rattle.argument_lists.specs.Heads.{head_front, IsHeadOf, IsHeadBehind, IsTypeHead, IsWrittenHead, IsBareHead};

use argument_fronts::{behind_sign, behind_type};
use lk_claims::Ty;
use lk_programs::RecordTy;
use slang_lexer::TokenKind;
use slang_tokens::Lexeme;

/// The front of a sequence up to its opening round bracket: whether the type of its elements is written, and what stands behind.
#[derive(Clone, Copy)]
pub struct Head<'t, 'a> {
    pub written: bool,
    pub rest: &'t [Lexeme<'a>],
}

/// The front of a sequence of elements of that type.
pub fn sequence_head<'t, 'a>(
    records: &[RecordTy],
    tokens: &'t [Lexeme<'a>],
    element: &Ty,
) -> Option<Head<'t, 'a>>
    ensures only { IsOnly head_front (IsHeadOf (names_of records.now) (record_types records.now) (value_type element.now) (toks tokens.now)) result }
    ensures shorter { IfSome result (λ head. length head.rest.now < length tokens.now) }
{
    match behind_sign(TokenKind::TypeIsz, tokens) {
        None => None,
        Some(rest) => head_behind(records, rest, element),
    }
}

/// The front of a sequence behind its word.
fn head_behind<'t, 'a>(
    records: &[RecordTy],
    tokens: &'t [Lexeme<'a>],
    element: &Ty,
) -> Option<Head<'t, 'a>>
    ensures only { IsOnly head_front (IsHeadBehind (names_of records.now) (record_types records.now) (value_type element.now) (toks tokens.now)) result }
    ensures shorter { IfSome result (λ head. length head.rest.now < length tokens.now) }
{
    match behind_sign(TokenKind::LeftBracket, tokens) {
        None => bare_head(tokens),
        Some(inner) => type_head(records, inner, element),
    }
}

fn bare_head<'t, 'a>(tokens: &'t [Lexeme<'a>]) -> Option<Head<'t, 'a>>
    ensures only { IsOnly head_front (IsBareHead (toks tokens.now)) result }
    ensures shorter { IfSome result (λ head. length head.rest.now < length tokens.now) }
{
    match behind_sign(TokenKind::LeftParen, tokens) {
        None => None,
        Some(rest) => Some(Head {
            written: false,
            rest,
        }),
    }
}

fn type_head<'t, 'a>(
    records: &[RecordTy],
    tokens: &'t [Lexeme<'a>],
    element: &Ty,
) -> Option<Head<'t, 'a>>
    ensures only { IsOnly head_front (IsTypeHead (names_of records.now) (record_types records.now) (value_type element.now) (toks tokens.now)) result }
    ensures shorter { IfSome result (λ head. length head.rest.now < length tokens.now) }
{
    match behind_type(records, tokens, element) {
        None => None,
        Some(rest) => written_head(rest),
    }
}

fn written_head<'t, 'a>(tokens: &'t [Lexeme<'a>]) -> Option<Head<'t, 'a>>
    ensures only { IsOnly head_front (IsWrittenHead (toks tokens.now)) result }
    ensures shorter { IfSome result (λ head. length head.rest.now < length tokens.now) }
{
    match behind_sign(TokenKind::RightBracket, tokens) {
        None => None,
        Some(rest) => match behind_sign(TokenKind::LeftParen, rest) {
            None => None,
            Some(rest) => Some(Head {
                written: true,
                rest,
            }),
        },
    }
}

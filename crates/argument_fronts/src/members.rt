ghost use Rattle.std.specs.Prelude.{◌≡◌, ◌<◌, length, IfSome};
ghost use Rattle.slang_tokens.specs.Tok.{toks};
ghost use Rattle.argument_fronts.specs.Only.{IsOnly};
ghost use Rattle.argument_fronts.specs.Heads.{end_front, IsEndOfMember, IsHeadOfRecord};
ghost use Rattle.argument_fronts.specs.Cursor.{tokens_in};
ghost use Rattle.argument_fronts.specs.Types.{names_of};
ghost use Rattle.lk_programs.specs.Program.{record_types};

use crate::cursor::{behind_sign, behind_text};
use crate::types::names_record;
use lk_programs::RecordTy;
use slang_lexer::TokenKind;
use slang_tokens::Lexeme;

/// What stands behind a member of a list: whether the list is over, and the tokens behind the comma or the bracket.
#[derive(Clone, Copy)]
pub struct MemberEnd<'t, 'a> {
    pub over: bool,
    pub rest: &'t [Lexeme<'a>],
}

/// The comma in front, or the round bracket that closes the list.
pub fn behind_member<'t, 'a>(tokens: &'t [Lexeme<'a>]) -> Option<MemberEnd<'t, 'a>>
    ensures only { IsOnly end_front (IsEndOfMember (toks tokens.now)) result }
    ensures shorter { IfSome result (λ end. length end.rest.now < length tokens.now) }
{
    match behind_sign(TokenKind::Comma, tokens) {
        Some(rest) => Some(MemberEnd { over: false, rest }),
        None => match behind_sign(TokenKind::RightParen, tokens) {
            None => None,
            Some(rest) => Some(MemberEnd { over: true, rest }),
        },
    }
}

/// What stands behind the front of a record of that number, up to its opening round bracket.
pub fn record_head<'t, 'a>(
    records: &[RecordTy],
    tokens: &'t [Lexeme<'a>],
    number: u32,
) -> Option<&'t [Lexeme<'a>]>
    ensures only { IsOnly tokens_in (IsHeadOfRecord (names_of records.now) (record_types records.now) number (toks tokens.now)) result }
    ensures shorter { IfSome result (λ rest. length rest.now < length tokens.now) }
{
    match behind_text(TokenKind::Name, tokens) {
        None => None,
        Some(name) => {
            if names_record(records, number, name.text) {
                behind_sign(TokenKind::LeftParen, name.rest)
            } else {
                None
            }
        }
    }
}

ghost use Rattle.std.specs.Prelude.{◌≡◌, ◌<◌, ◌&&◌, length, IfSome};
ghost use Rattle.slang_tokens.specs.Tok.{toks};
ghost use Rattle.lk_claims.specs.Claim.{value_type};
ghost use Rattle.lk_programs.specs.Program.{record_types};
ghost use Rattle.argument_rules.specs.Values.{is_named};
ghost use Rattle.slang_grammar.specs.Parts.{is_plain};
ghost use Rattle.argument_fronts.specs.Only.{IsOnly};
ghost use Rattle.argument_fronts.specs.Cursor.{tokens_in};
ghost use Rattle.argument_fronts.specs.Types.{names_of, StandBehindType};

use crate::cursor::{behind_sign, behind_text};
use lk_claims::Ty;
use lk_programs::RecordTy;
use slang_lexer::TokenKind;
use slang_tokens::Lexeme;

/// Whether the record of that number has this name.
pub fn is_named(records: &[RecordTy], number: u32, name: &str) -> bool
    ensures { result ≡ is_named (names_of records.now) (record_types records.now) number name.now }
{
    match records.get(number as usize) {
        None => false,
        Some(record) => record.name.as_str() == name,
    }
}

/// Whether the name is not `_`.
pub fn is_plain(name: &str) -> bool
    ensures { result ≡ is_plain name.now }
{
    name != "_"
}

/// Whether the name is that of the record of that number, and not `_`.
pub fn names_record(records: &[RecordTy], number: u32, name: &str) -> bool
    ensures { result ≡ (is_plain name.now && is_named (names_of records.now) (record_types records.now) number name.now) }
{
    is_plain(name) && is_named(records, number, name)
}

/// The tokens behind the type, where it is written in front.
#[tactic(auto, using(lk_claims::proofs::Types::type_lines))]
pub fn behind_type<'t, 'a>(
    records: &[RecordTy],
    tokens: &'t [Lexeme<'a>],
    ty: &Ty,
) -> Option<&'t [Lexeme<'a>]>
    ensures only { IsOnly tokens_in (StandBehindType (names_of records.now) (record_types records.now) (value_type ty.now) (toks tokens.now)) result }
    ensures shorter { IfSome result (λ rest. length rest.now < length tokens.now) }
{
    match ty {
        Ty::Unit => behind_sign(TokenKind::TypeUnit, tokens),
        Ty::Z => behind_sign(TokenKind::TypeZ, tokens),
        Ty::B => behind_sign(TokenKind::TypeB, tokens),
        Ty::Seq(element) => match behind_sign(TokenKind::TypeIsz, tokens) {
            None => None,
            Some(rest) => match behind_sign(TokenKind::LeftBracket, rest) {
                None => None,
                Some(inner) => match behind_type(records, inner, element.get()) {
                    None => None,
                    Some(rest) => behind_sign(TokenKind::RightBracket, rest),
                },
            },
        },
        Ty::Rec(number) => match behind_text(TokenKind::Name, tokens) {
            None => None,
            Some(name) => {
                if names_record(records, *number, name.text) {
                    Some(name.rest)
                } else {
                    None
                }
            }
        },
    }
}

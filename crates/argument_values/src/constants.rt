ghost use Rattle.std.specs.Prelude.{◌≡◌, ◌<◌, ◌++◌, [], ◌∷◌, length, if◌then◌else◌, IfOk, IfSome, OnOk};
ghost use Rattle.slang_tokens.specs.Tok.{toks};
ghost use Rattle.lk_claims.specs.Claim.{value_type};
ghost use Rattle.argument_fronts.specs.Only.{IsOnly};
ghost use Rattle.argument_fronts.specs.Types.{names_of};
ghost use Rattle.argument_lists.specs.Parts.{parts_of, can_end};
ghost use Rattle.slang_values.specs.Value.{fields};
ghost use Rattle.run_values.specs.Value.{plain_values};
ghost use Rattle.lk_programs.specs.Program.{field_types, record_types};
ghost use Rattle.argument_fronts.specs.Heads.{end_front, IsEndOfMember};
ghost use Rattle.argument_values.specs.Members.{IsMember, IsShorter};
ghost use Rattle.argument_values.specs.declared.constants.Found.TheVariants as found;
ghost use Rattle.argument_values.specs.Consts.{values_front, ArePartsFront, IsSequenceEnd, IsRecordEnd};
ghost use Rattle.argument_scalars.specs.Fronts.{value_front, IsValueFront};

use crate::NoMemory;
use argument_fronts::{MemberEnd, behind_member, behind_sign, record_head};
use argument_lists::{Parts, sequence_head};
use argument_scalars::{Read, number_read, truth_read};
use lk_claims::Ty;
use lk_programs::{FieldTy, RecordTy};
use run_values::Value;
use slang_lexer::TokenKind;
use slang_tokens::Lexeme;
use sqlite_items::Items;
use std::alloc::{AllocError, Global};

/// The constant of that type that stands in front.
#[cycle(constants)]
#[tactic(auto, using(lk_claims::proofs::Types::type_lines))]
pub fn const_at<'t, 'a>(
    alloc: Global,
    records: &[RecordTy],
    tokens: &'t [Lexeme<'a>],
    ty: &Ty,
) -> Result<Option<Read<'t, 'a>>, NoMemory>
    ensures only { IfOk result (IsOnly value_front (IsValueFront (names_of records.now) (record_types records.now) (value_type ty.now) (toks tokens.now))) }
    ensures shorter { IfOk result (λ o. IfSome o (λ read. length read.rest.now < length tokens.now)) }
{
    match ty {
        Ty::Unit => Ok(None),
        Ty::Z => Ok(number_read(tokens)),
        Ty::B => Ok(truth_read(tokens)),
        Ty::Seq(element) => {
            let inner = element.get();
            match sequence_head(records, tokens, inner) {
                None => Ok(None),
                Some(head) => {
                    let mut values = Items::new(alloc);
                    match parts_at(alloc, records, head.rest, Parts::Same(inner), &mut values) {
                        Err(end) => Err(end),
                        Ok(None) => Ok(None),
                        Ok(Some(rest)) => sequence_read(alloc, inner, head.written, values, rest),
                    }
                }
            }
        }
        Ty::Rec(number) => match record_head(records, tokens, *number) {
            None => Ok(None),
            Some(rest) => {
                let mut values = Items::new(alloc);
                match parts_at(
                    alloc,
                    records,
                    rest,
                    Parts::Each(fields_of(records, *number)),
                    &mut values,
                ) {
                    Err(end) => Err(end),
                    Ok(None) => Ok(None),
                    Ok(Some(rest)) => Ok(record_read(*number, values, rest)),
                }
            }
        },
    }
}

/// The constants of these types that stand in front, up to the round bracket that closes their list. Their values are added.
#[cycle(constants)]
fn parts_at<'t, 'a, 'r>(
    alloc: Global,
    records: &[RecordTy],
    tokens: &'t [Lexeme<'a>],
    parts: Parts<'r>,
    values: &mut Items<Value>,
) -> Result<Option<&'t [Lexeme<'a>]>, NoMemory>
    requires { values.old ≡ [] }
    ensures only { IfOk result (IsOnly (values_front values.new)
        (ArePartsFront (names_of records.now) (record_types records.now) (parts_of parts.entry) (toks tokens.now))) }
    ensures shorter { IfOk result (λ o. IfSome o (λ rest. length rest.now < length tokens.now)) }
{
    let mut place = ListPlace {
        rest: tokens,
        parts,
    };
    'members: loop {
        match member_at(alloc, records, &mut place, values) {
            Err(end) => return Err(end),
            Ok(Found::Nothing) => return Ok(None),
            Ok(Found::Over) => return Ok(Some(place.rest)),
            Ok(Found::More) => {}
        }
    }
}

/// Where a list is read: the tokens that are left, and the types of the members that may come.
#[derive(Clone, Copy)]
pub struct ListPlace<'t, 'a, 'r> {
    pub rest: &'t [Lexeme<'a>],
    pub parts: Parts<'r>,
}

/// What was found at a place of a list: no such list, its end, or a member behind which it goes on.
#[derive(Clone, Copy)]
pub enum Found {
    Nothing,
    Over,
    More,
}

/// The end of a list, or its next member, whose value is added. The place goes behind it.
#[cycle(constants)]
fn member_at<'t, 'a, 'r>(
    alloc: Global,
    records: &[RecordTy],
    place: &mut ListPlace<'t, 'a, 'r>,
    values: &mut Items<Value>,
) -> Result<Found, NoMemory>
    ensures member { IfOk result (IsMember (names_of records.now) (record_types records.now) place.old values.old place.new values.new) }
    ensures shorter { IfOk result (IsShorter place.old place.new) }
{
    let tokens: &'t [Lexeme<'a>] = place.rest;
    let parts = place.parts;
    match behind_sign(TokenKind::RightParen, tokens) {
        Some(behind) => {
            *place = ListPlace {
                rest: behind,
                parts,
            };
            Ok(over_where(parts.can_end()))
        }
        None => match parts.next() {
            None => Ok(Found::Nothing),
            Some(next) => match const_at(alloc, records, tokens, next.ty) {
                Err(end) => Err(end),
                Ok(None) => Ok(Found::Nothing),
                Ok(Some(read)) => match member_of(read, values) {
                    Err(end) => Err(end),
                    Ok(None) => Ok(Found::Nothing),
                    Ok(Some(end)) => {
                        *place = ListPlace {
                            rest: end.rest,
                            parts: next.others,
                        };
                        Ok(found_with(end.over, next.others))
                    }
                },
            },
        },
    }
}

fn over_where(can_end: bool) -> Found
    ensures { result ≡ (if can_end then found.Over else found.Nothing) }
{
    if can_end { Found::Over } else { Found::Nothing }
}

fn found_with(over: bool, others: Parts<'_>) -> Found
    ensures { result ≡ (if over then (if can_end (parts_of others.entry) then found.Over else found.Nothing) else found.More) }
{
    if over {
        over_where(others.can_end())
    } else {
        Found::More
    }
}

/// Adds the value, and goes behind the comma or the bracket that stands behind it.
fn member_of<'t, 'a>(
    read: Read<'t, 'a>,
    values: &mut Items<Value>,
) -> Result<Option<MemberEnd<'t, 'a>>, NoMemory>
    ensures only { IfOk result (IsOnly end_front (IsEndOfMember (toks read.entry.rest.now))) }
    ensures added { OnOk result (values.new ≡ values.old ++ read.entry.value ∷ []) }
    ensures shorter { IfOk result (λ o. IfSome o (λ end. length end.rest.now < length read.entry.rest.now)) }
{
    let end = behind_member(read.rest);
    match values.push(read.value) {
        Err(_) => Err(AllocError),
        Ok(()) => Ok(end),
    }
}

/// The sequence of these elements, which has some where their type is not written.
fn sequence_read<'t, 'a>(
    alloc: Global,
    element: &Ty,
    is_written: bool,
    values: Items<Value>,
    rest: &'t [Lexeme<'a>],
) -> Result<Option<Read<'t, 'a>>, NoMemory>
    ensures only { IfOk result (IsOnly value_front (IsSequenceEnd is_written (value_type element.now) (plain_values values) (toks rest.now))) }
    ensures same { IfOk result (λ o. IfSome o (λ read. read.rest.now ≡ rest.now)) }
{
    if !is_written && values.is_empty() {
        return Ok(None);
    }
    match element.copy(alloc) {
        Err(_) => Err(AllocError),
        Ok(ty) => Ok(Some(Read {
            value: Value::Seq(ty, values),
            rest,
        })),
    }
}

/// The record of these fields, which has some.
fn record_read<'t, 'a>(
    number: u32,
    values: Items<Value>,
    rest: &'t [Lexeme<'a>],
) -> Option<Read<'t, 'a>>
    ensures only { IsOnly value_front (IsRecordEnd number (plain_values values) (toks rest.now)) result }
    ensures same { IfSome result (λ read. read.rest.now ≡ rest.now) }
{
    if values.is_empty() {
        None
    } else {
        Some(Read {
            value: Value::Rec(number, values),
            rest,
        })
    }
}

/// The fields of the record of that number, where there is one.
fn fields_of(records: &[RecordTy], number: u32) -> &[FieldTy]
    ensures { field_types result.now ≡ fields (record_types records.now) number }
{
    match records.get(number as usize) {
        Some(record) => record.fields.as_slice(),
        None => &[],
    }
}

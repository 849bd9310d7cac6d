ghost use Rattle.std.specs.Prelude.{◌≡◌, ◌<◌, ◌≤◌, if◌then◌else◌, false, List, [], map, length, IfOk, IfErr, OnOk, IsTrue};
ghost use Rattle.std.specs.Option.{option_map};
ghost use Rattle.slang_tree.specs.declared.place.Place.{Place as ThePlace};
ghost use Rattle.slang_lexer.specs.declared.token.TokenKind.TheVariants as kind;
ghost use Rattle.slang_tree.specs.declared.expression.Name.{Name as TheName};
ghost use Rattle.slang_tree.specs.declared.declaration.Const.{Const as TheConst};
ghost use Rattle.slang_tree.specs.TypeTree.{type_tree};
ghost use Rattle.slang_tree.specs.DeclTree as d;
ghost use Rattle.slang_tree.specs.DeclTree.{ConstTree, const_tree, consts_of};
ghost use Rattle.slang_tokens.specs.Tok.{tok};
ghost use Rattle.slang_machine.specs.Open.{Consts};
ghost use Rattle.slang_machine.specs.States.{State, want_const, const_or_end, minus_digits, consts_type, fields_left};
ghost use Rattle.slang_machine.specs.Expressions.{name_of};
ghost use Rattle.slang_machine.specs.Declarations.{end_const};
ghost use Rattle.token_cursor.specs.Outcome.{outcome};
ghost use Rattle.token_cursor.specs.Gives.{ahead, IfRefused, Moves, Refuses};
ghost use Rattle.token_cursor.specs.Lists.{begins};
ghost use Rattle.constant_parser.specs.Constants.{ReadsConsts, const_head_of, behind_const_head};

use expression_parser::sequence_head;
use owned_results::both;
use slang_lexer::TokenKind;
use slang_tokens::Lexeme;
use slang_tree::{Const, Name, Place, TypeName};
use sqlite_items::Items;
use std::alloc::Global;
use token_cursor::{Cursor, Due, Stop, is, is_name, kept, name_of, number_of};

/// What a token begins where a constant is due.
#[derive(Clone, Copy)]
enum ConstHead {
    Number(i128),
    /// `-`.
    Minus,
    True,
    False,
    /// `ISZ`.
    Sequence,
    /// The name of a record.
    Name,
}

/// What the token begins.
fn const_head_of(token: &Lexeme<'_>) -> Option<ConstHead>
    ensures { result ≡ const_head_of (tok token.now) }
{
    if let Some(value) = number_of(token) {
        return Some(ConstHead::Number(value));
    }
    if is(TokenKind::Minus, token) {
        return Some(ConstHead::Minus);
    }
    if is(TokenKind::True, token) {
        return Some(ConstHead::True);
    }
    if is(TokenKind::False, token) {
        return Some(ConstHead::False);
    }
    if is(TokenKind::TypeIsz, token) {
        return Some(ConstHead::Sequence);
    }
    is_name(token).then_some(ConstHead::Name)
}

/// Goes behind the token that begins a constant, which is due, and tells what it begins.
fn begin_constant<'t, 'a>(tokens: &mut Cursor<'t, 'a>) -> Result<(ConstHead, &'t Lexeme<'a>), Stop>
    ensures reads { IfOk result (λ r. (around : Consts) → outcome (want_const around) (ahead tokens.old) ≡ outcome (behind_const_head around (tok r.1.now) r.0) (ahead tokens.new)) }
    ensures shorter { OnOk result (length (ahead tokens.new) < length (ahead tokens.old)) }
    ensures refused { IfErr result (λ stop. IfRefused stop (λ due. (around : Consts) → Refuses tokens.old (want_const around) tokens.new due)) }
{
    let Some(token) = tokens.first() else {
        return Err(Stop::Refused(Due::Other));
    };
    let Some(head) = const_head_of(token) else {
        return Err(Stop::Refused(Due::Other));
    };
    tokens.advance();
    Ok((head, token))
}

/// The number behind a minus.
fn digits(tokens: &mut Cursor<'_, '_>) -> Result<(Place, i128), Stop>
    ensures reads { IfOk result (λ r. (place : ThePlace) (around : Consts) → Moves tokens.old (minus_digits place around) tokens.new (end_const (d.const_minus place r.0 r.1) around)) }
    ensures shorter { OnOk result (length (ahead tokens.new) < length (ahead tokens.old)) }
    ensures refused { IfErr result (λ stop. IfRefused stop (λ due. (place : ThePlace) (around : Consts) → Refuses tokens.old (minus_digits place around) tokens.new due)) }
{
    let Some(token) = tokens.first() else {
        return Err(Stop::Refused(Due::Other));
    };
    let Some(value) = number_of(token) else {
        return Err(Stop::Refused(Due::Other));
    };
    tokens.advance();
    Ok((token.place, value))
}

fn sequence_of(
    place: Place,
    ty: Option<TypeName>,
    elements: Result<Items<Const>, Stop>,
) -> Result<Const, Stop>
    ensures made { IfOk result (λ made. (read : List TheConst) × (elements ≡ Ok read) × (const_tree made ≡ d.const_sequence place (option_map type_tree ty) (consts_of (map const_tree read)))) }
    ensures refused { IfErr result (λ stop. IfRefused stop (λ due. elements ≡ Err stop)) }
{
    let (ty, elements) = both(Ok(ty), elements)?;
    Ok(Const::Sequence(place, ty, elements))
}

fn record_of(name: Name, fields: Result<Items<Const>, Stop>) -> Result<Const, Stop>
    ensures made { IfOk result (λ made. (read : List TheConst) × (fields ≡ Ok read) × (const_tree made ≡ d.const_record name (consts_of (map const_tree read)))) }
    ensures refused { IfErr result (λ stop. IfRefused stop (λ due. fields ≡ Err stop)) }
{
    let (name, fields) = both(Ok(name), fields)?;
    Ok(Const::Record(name, fields))
}

/// A negative constant, from behind its minus on.
fn minus(place: Place, tokens: &mut Cursor<'_, '_>) -> Result<Const, Stop>
    ensures reads { IfOk result (λ const. (around : Consts) → Moves tokens.old (minus_digits place around) tokens.new (end_const (const_tree const) around)) }
    ensures shorter { OnOk result (length (ahead tokens.new) < length (ahead tokens.old)) }
    ensures refused { IfErr result (λ stop. IfRefused stop (λ due. (around : Consts) → Refuses tokens.old (minus_digits place around) tokens.new due)) }
{
    let (behind, value) = digits(tokens)?;
    Ok(Const::Minus(place, behind, value))
}

/// Refuses the end of a list before its first constant, where some are due.
fn refuse_empty(some: bool, tokens: &Cursor<'_, '_>) -> Result<(), Stop>
    ensures begun { OnOk result (IsTrue some → begins kind.RightParen (ahead tokens.now) ≡ false) }
    ensures refused { IfErr result (λ stop. IfRefused stop (λ due. (at : List ConstTree → Consts) → Refuses tokens.now (if some then want_const (at []) else const_or_end (at [])) tokens.now due)) }
{
    if !some {
        return Ok(());
    }
    if tokens.is_at(TokenKind::RightParen) {
        return Err(Stop::Refused(Due::Other));
    }
    Ok(())
}

/// A constant, which is due.
#[cycle(constants)]
pub fn constant(alloc: Global, tokens: &mut Cursor<'_, '_>) -> Result<Const, Stop>
    ensures reads { IfOk result (λ const. (around : Consts) → Moves tokens.old (want_const around) tokens.new (end_const (const_tree const) around)) }
    ensures shorter { OnOk result (length (ahead tokens.new) < length (ahead tokens.old)) }
    ensures refused { IfErr result (λ stop. IfRefused stop (λ due. (around : Consts) → Refuses tokens.old (want_const around) tokens.new due)) }
{
    let (head, token) = begin_constant(tokens)?;
    constant_behind(alloc, head, token, tokens)
}

/// A constant, from behind the token that begins it.
#[cycle(constants)]
fn constant_behind(
    alloc: Global,
    head: ConstHead,
    token: &Lexeme<'_>,
    tokens: &mut Cursor<'_, '_>,
) -> Result<Const, Stop>
    ensures reads { IfOk result (λ const. (around : Consts) → Moves tokens.old (behind_const_head around (tok token.now) head) tokens.new (end_const (const_tree const) around)) }
    ensures no_longer { OnOk result (length (ahead tokens.new) ≤ length (ahead tokens.old)) }
    ensures refused { IfErr result (λ stop. IfRefused stop (λ due. (around : Consts) → Refuses tokens.old (behind_const_head around (tok token.now) head) tokens.new due)) }
{
    match head {
        ConstHead::Number(value) => Ok(Const::Number(token.place, value)),
        ConstHead::Minus => minus(token.place, tokens),
        ConstHead::True => Ok(Const::True(token.place)),
        ConstHead::False => Ok(Const::False(token.place)),
        ConstHead::Sequence => sequence_value(alloc, token.place, tokens),
        ConstHead::Name => record_value(alloc, token, tokens),
    }
}

/// A sequence, from behind its word on. Without the type of its elements it has one at least.
#[cycle(constants)]
fn sequence_value(alloc: Global, place: Place, tokens: &mut Cursor<'_, '_>) -> Result<Const, Stop>
    ensures reads { IfOk result (λ const. (around : Consts) → Moves tokens.old (consts_type place around) tokens.new (end_const (const_tree const) around)) }
    ensures shorter { OnOk result (length (ahead tokens.new) < length (ahead tokens.old)) }
    ensures refused { IfErr result (λ stop. IfRefused stop (λ due. (around : Consts) → Refuses tokens.old (consts_type place around) tokens.new due)) }
{
    let ty = sequence_head(alloc, tokens)?;
    let some = ty.is_none();
    sequence_of(place, ty, constants(alloc, some, tokens))
}

/// A record, where this token is its name.
#[cycle(constants)]
fn record_value(
    alloc: Global,
    token: &Lexeme<'_>,
    tokens: &mut Cursor<'_, '_>,
) -> Result<Const, Stop>
    ensures reads { IfOk result (λ const. (around : Consts) → Moves tokens.old (fields_left (name_of (tok token.now)) around) tokens.new (end_const (const_tree const) around)) }
    ensures shorter { OnOk result (length (ahead tokens.new) < length (ahead tokens.old)) }
    ensures refused { IfErr result (λ stop. IfRefused stop (λ due. (around : Consts) → Refuses tokens.old (fields_left (name_of (tok token.now)) around) tokens.new due)) }
{
    let name = name_of(alloc, token)?;
    record_of(name, fields(alloc, tokens))
}

/// The fields of a record in round brackets, one at least.
#[cycle(constants)]
fn fields(alloc: Global, tokens: &mut Cursor<'_, '_>) -> Result<Items<Const>, Stop>
    ensures reads { IfOk result (λ consts. (written : TheName) (around : Consts) → Moves tokens.old (fields_left written around) tokens.new (end_const (d.const_record written (consts_of (map const_tree consts))) around)) }
    ensures shorter { OnOk result (length (ahead tokens.new) < length (ahead tokens.old)) }
    ensures refused { IfErr result (λ stop. IfRefused stop (λ due. (written : TheName) (around : Consts) → Refuses tokens.old (fields_left written around) tokens.new due)) }
{
    tokens.expect(TokenKind::LeftParen)?;
    constants(alloc, true, tokens)
}

/// The constants of a list, up to its closing bracket. Where some are due, there is one at least.
#[cycle(constants)]
fn constants(alloc: Global, some: bool, tokens: &mut Cursor<'_, '_>) -> Result<Items<Const>, Stop>
    ensures reads { IfOk result (λ consts. (at : List ConstTree → Consts) (over : List ConstTree → State) → ReadsConsts at over → Moves tokens.old (if some then want_const (at []) else const_or_end (at [])) tokens.new (over (map const_tree consts))) }
    ensures no_longer { OnOk result (length (ahead tokens.new) ≤ length (ahead tokens.old)) }
    ensures refused { IfErr result (λ stop. IfRefused stop (λ due. (at : List ConstTree → Consts) (over : List ConstTree → State) → ReadsConsts at over → Refuses tokens.old (if some then want_const (at []) else const_or_end (at [])) tokens.new due)) }
{
    refuse_empty(some, tokens)?;
    let mut list = Items::new(alloc);
    let end = add_constants(alloc, &mut list, tokens);
    kept(list, end)
}

/// Adds the constants of a list, up to its closing bracket.
#[cycle(constants)]
fn add_constants(
    alloc: Global,
    list: &mut Items<Const>,
    tokens: &mut Cursor<'_, '_>,
) -> Result<(), Stop>
    ensures reads { OnOk result ((at : List ConstTree → Consts) (over : List ConstTree → State) → ReadsConsts at over → Moves tokens.old (const_or_end (at (map const_tree list.old))) tokens.new (over (map const_tree list.new))) }
    ensures no_longer { OnOk result (length (ahead tokens.new) ≤ length (ahead tokens.old)) }
    ensures refused { IfErr result (λ stop. IfRefused stop (λ due. (at : List ConstTree → Consts) (over : List ConstTree → State) → ReadsConsts at over → Refuses tokens.old (const_or_end (at (map const_tree list.old))) tokens.new due)) }
{
    let mut more = !tokens.take(TokenKind::RightParen);
    'members: while more {
        let member = constant(alloc, tokens)?;
        list.push(member)?;
        more = tokens.goes_on(TokenKind::Comma, TokenKind::RightParen)?;
    }
    Ok(())
}

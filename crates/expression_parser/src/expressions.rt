ghost use Rattle.std.specs.Prelude.{◌≡◌, ◌<◌, ◌≤◌, if◌then◌else◌, true, false, not, [], map, length, IfOk, IfErr, OnOk, MatchResult, IsTrue, codes};
ghost use Rattle.std.specs.Str.{bytes_eq};
ghost use Rattle.slang_values.specs.declared.operators.Quantifier.{Quantifier as TheQuantifier};
ghost use Rattle.slang_lexer.specs.declared.token.TokenKind.TheVariants as kind;
ghost use Rattle.slang_tree.specs.declared.place.Place.{Place as ThePlace};
ghost use Rattle.slang_tree.specs.declared.expression.Expr.{Expr as TheExpr};
ghost use Rattle.slang_tree.specs.ExprTree.{ExprTree, expr_tree};
ghost use Rattle.slang_tokens.specs.Tok.{tok};
ghost use Rattle.slang_machine.specs.Open.{Around, low_of, argument_of, held};
ghost use Rattle.slang_machine.specs.States.{State, Range, ValueWord, entry_word, old_word, whole as whole_of, want, have, result_or_type, value_left, sequence_or_type, argument_or_end, range_left, bound_left};
ghost use Rattle.slang_machine.specs.Expressions.{value_tree, application, body_around};
ghost use Rattle.token_cursor.specs.Gives.{ahead, IfRefused, Moves, Refuses, Expects};
ghost use Rattle.token_cursor.specs.Lists.{begins};
ghost use Rattle.expression_parser.specs.Begins.{behind_head};
ghost use Rattle.expression_parser.specs.Below.{ends_operand, StopsBefore};
ghost use Rattle.expression_parser.specs.Expects.{begins_range, ClosesExpr, ExprList, ReadsExprs, IsFirstArgument};
ghost use Rattle.expression_parser.specs.Forms.{operand_form, range_form, applied_tree, IsIndicesOf, IsNoRange};

use crate::begin::{Beginning, Head, begin};
use crate::build::{
    BracketForm, OperandForm, RangeForm, applied, arguments_of, beside, between, binary, dotted,
    one, prefixed, quantify, sequence, update, whole,
};
use crate::lists::sequence_head;
use crate::operators::{pull, refuse_mixed, stronger};
use slang_grammar::Side;
use slang_lexer::TokenKind;
use slang_tokens::Lexeme;
use slang_tree::{Expr, Name, Place};
use slang_values::Quantifier;
use sqlite_items::Items;
use std::alloc::Global;
use token_cursor::{Cursor, Due, Stop, element_type, kept, name, name_of};

/// `Res`, from behind the word on.
fn result_value(alloc: Global, place: Place, tokens: &mut Cursor<'_, '_>) -> Result<Expr, Stop>
    ensures reads { IfOk result (λ expr. (around : Around) → Moves tokens.old (result_or_type place around) tokens.new (have (whole_of (expr_tree expr)) around)) }
    ensures no_longer { OnOk result (length (ahead tokens.new) ≤ length (ahead tokens.old)) }
    ensures refused { IfErr result (λ stop. IfRefused stop (λ due. (around : Around) → Refuses tokens.old (result_or_type place around) tokens.new due)) }
{
    let ty = element_type(alloc, tokens)?;
    Ok(Expr::Res(place, ty))
}

/// A name in round brackets.
fn bracketed_name(alloc: Global, tokens: &mut Cursor<'_, '_>) -> Result<Name, Stop>
    ensures reads { IfOk result (λ written. (word : ValueWord) (place : ThePlace) (around : Around) → Moves tokens.old (value_left word place around) tokens.new (have (whole_of (value_tree word place written)) around)) }
    ensures shorter { OnOk result (length (ahead tokens.new) < length (ahead tokens.old)) }
    ensures refused { IfErr result (λ stop. IfRefused stop (λ due. (word : ValueWord) (place : ThePlace) (around : Around) → Refuses tokens.old (value_left word place around) tokens.new due)) }
{
    tokens.expect(TokenKind::LeftParen)?;
    let name = name(alloc, tokens)?;
    kept(name, tokens.expect(TokenKind::RightParen))
}

/// `In`, from behind the word on.
fn entry_value(alloc: Global, place: Place, tokens: &mut Cursor<'_, '_>) -> Result<Expr, Stop>
    ensures reads { IfOk result (λ expr. (around : Around) → Moves tokens.old (value_left entry_word place around) tokens.new (have (whole_of (expr_tree expr)) around)) }
    ensures shorter { OnOk result (length (ahead tokens.new) < length (ahead tokens.old)) }
    ensures refused { IfErr result (λ stop. IfRefused stop (λ due. (around : Around) → Refuses tokens.old (value_left entry_word place around) tokens.new due)) }
{
    let name = bracketed_name(alloc, tokens)?;
    Ok(Expr::In(place, name))
}

/// `Old`, from behind the word on.
fn old_value(alloc: Global, place: Place, tokens: &mut Cursor<'_, '_>) -> Result<Expr, Stop>
    ensures reads { IfOk result (λ expr. (around : Around) → Moves tokens.old (value_left old_word place around) tokens.new (have (whole_of (expr_tree expr)) around)) }
    ensures shorter { OnOk result (length (ahead tokens.new) < length (ahead tokens.old)) }
    ensures refused { IfErr result (λ stop. IfRefused stop (λ due. (around : Around) → Refuses tokens.old (value_left old_word place around) tokens.new due)) }
{
    let name = bracketed_name(alloc, tokens)?;
    Ok(Expr::Old(place, name))
}

/// Behind a range, the bracket and the variable of a quantifier, up to the arrow.
fn bound_name(alloc: Global, tokens: &mut Cursor<'_, '_>) -> Result<Name, Stop>
    ensures reads { IfOk result (λ written. (by : TheQuantifier) (place : ThePlace) (range : Range) (around : Around) → Moves tokens.old (bound_left by place range around) tokens.new (want (body_around by place range written around))) }
    ensures shorter { OnOk result (length (ahead tokens.new) < length (ahead tokens.old)) }
    ensures refused { IfErr result (λ stop. IfRefused stop (λ due. (by : TheQuantifier) (place : ThePlace) (range : Range) (around : Around) → Refuses tokens.old (bound_left by place range around) tokens.new due)) }
{
    tokens.expect(TokenKind::LeftParen)?;
    let name = name(alloc, tokens)?;
    kept(name, tokens.expect(TokenKind::FatArrow))
}

/// An expression, as far as its operators pull more strongly than the operator before it does: this is that operator's
/// pull, and 0 where none stands there.
#[cycle(expression)]
pub fn expression(alloc: Global, before: u8, tokens: &mut Cursor<'_, '_>) -> Result<Expr, Stop>
    requires { before ≤ 18 }
    ensures reads { IfOk result (λ expr. (around : Around) → held around ≡ before → begins_range around ≡ false → Moves tokens.old (want around) tokens.new (have (whole_of (expr_tree expr)) around)) }
    ensures stops { OnOk result (StopsBefore before (ahead tokens.new)) }
    ensures shorter { OnOk result (length (ahead tokens.new) < length (ahead tokens.old)) }
    ensures refused { IfErr result (λ stop. IfRefused stop (λ due. (around : Around) → held around ≡ before → begins_range around ≡ false → Refuses tokens.old (want around) tokens.new due)) }
{
    let operand = operand(alloc, tokens)?;
    let left = whole(alloc, operand)?;
    operators(alloc, left, before, tokens)
}

/// The operators behind an operand, with theirs.
#[cycle(expression)]
fn operators(
    alloc: Global,
    left: Expr,
    before: u8,
    tokens: &mut Cursor<'_, '_>,
) -> Result<Expr, Stop>
    requires small { before ≤ 18 }
    requires behind { ends_operand (ahead tokens.old) ≡ true }
    ensures reads { IfOk result (λ expr. (around : Around) → held around ≡ before → Moves tokens.old (have (whole_of (expr_tree left)) around) tokens.new (have (whole_of (expr_tree expr)) around)) }
    ensures stops { OnOk result (StopsBefore before (ahead tokens.new)) }
    ensures no_longer { OnOk result (length (ahead tokens.new) ≤ length (ahead tokens.old)) }
    ensures refused { IfErr result (λ stop. IfRefused stop (λ due. (around : Around) → held around ≡ before → Refuses tokens.old (have (whole_of (expr_tree left)) around) tokens.new due)) }
{
    let mut left = left;
    'operators: while let Some(row) = stronger(before, tokens) {
        tokens.advance();
        let right = expression(alloc, pull(Side::Right, row), tokens);
        left = binary(alloc, row.operator, left, right)?;
    }
    kept(left, refuse_mixed(before, tokens))
}

/// An operand with its prefixes, and with the fields, arguments and updates behind it.
#[cycle(expression)]
fn operand(alloc: Global, tokens: &mut Cursor<'_, '_>) -> Result<OperandForm, Stop>
    ensures reads { IfOk result (λ operand. (around : Around) → Moves tokens.old (want around) tokens.new (have (operand_form operand) around)) }
    ensures ends { OnOk result (ends_operand (ahead tokens.new) ≡ true) }
    ensures shorter { OnOk result (length (ahead tokens.new) < length (ahead tokens.old)) }
    ensures refused { IfErr result (λ stop. IfRefused stop (λ due. (around : Around) → Refuses tokens.old (want around) tokens.new due)) }
{
    let (beginning, token) = begin(tokens)?;
    let head = match beginning {
        Beginning::Prefix(prefix) => {
            let inner = operand(alloc, tokens)?;
            return Ok(prefixed(alloc, prefix, token.place, inner)?);
        }
        Beginning::Head(head) => head,
    };
    let mut operand = OperandForm::Whole(head_expr(alloc, head, token, tokens)?);
    'posts: while goes_on(tokens) {
        operand = post(alloc, operand, tokens)?;
    }
    Ok(operand)
}

/// Whether what comes next goes on with an operand.
fn goes_on(tokens: &Cursor<'_, '_>) -> bool
    ensures { result ≡ not (ends_operand (ahead tokens.now)) }
{
    tokens.is_at(TokenKind::LeftParen) || tokens.is_at(TokenKind::Dot)
}

/// What goes on with an operand: brackets, or a dot and a name.
#[cycle(expression)]
fn post(alloc: Global, head: OperandForm, tokens: &mut Cursor<'_, '_>) -> Result<OperandForm, Stop>
    requires { ends_operand (ahead tokens.old) ≡ false }
    ensures reads { IfOk result (λ made. (around : Around) → Moves tokens.old (have (operand_form head) around) tokens.new (have (operand_form made) around)) }
    ensures shorter { OnOk result (length (ahead tokens.new) < length (ahead tokens.old)) }
    ensures refused { IfErr result (λ stop. IfRefused stop (λ due. (around : Around) → Refuses tokens.old (have (operand_form head) around) tokens.new due)) }
{
    if tokens.take(TokenKind::LeftParen) {
        return applied(alloc, head, brackets(alloc, tokens));
    }
    tokens.advance();
    dotted(alloc, head, name(alloc, tokens))
}

/// What needs no brackets anywhere, from behind its first token on.
#[cycle(expression)]
fn head_expr(
    alloc: Global,
    head: Head,
    token: &Lexeme<'_>,
    tokens: &mut Cursor<'_, '_>,
) -> Result<Expr, Stop>
    ensures reads { IfOk result (λ expr. (around : Around) → Moves tokens.old (behind_head around (tok token.now) head) tokens.new (have (whole_of (expr_tree expr)) around)) }
    ensures no_longer { OnOk result (length (ahead tokens.new) ≤ length (ahead tokens.old)) }
    ensures refused { IfErr result (λ stop. IfRefused stop (λ due. (around : Around) → Refuses tokens.old (behind_head around (tok token.now) head) tokens.new due)) }
{
    let place = token.place;
    match head {
        Head::Number(value) => Ok(Expr::Number(place, value)),
        Head::True => Ok(Expr::True(place)),
        Head::False => Ok(Expr::False(place)),
        Head::Name => Ok(Expr::Name(name_of(alloc, token)?)),
        Head::Entry => entry_value(alloc, place, tokens),
        Head::Old => old_value(alloc, place, tokens),
        Head::Result => result_value(alloc, place, tokens),
        Head::Sequence => sequence_value(alloc, place, tokens),
        Head::Quantifier(by) => quantified(alloc, by, place, tokens),
        Head::Bracket => closed_expression(alloc, tokens),
    }
}

/// A sequence, from behind its word on.
#[cycle(expression)]
fn sequence_value(alloc: Global, place: Place, tokens: &mut Cursor<'_, '_>) -> Result<Expr, Stop>
    ensures reads { IfOk result (λ expr. (around : Around) → Moves tokens.old (sequence_or_type place around) tokens.new (have (whole_of (expr_tree expr)) around)) }
    ensures shorter { OnOk result (length (ahead tokens.new) < length (ahead tokens.old)) }
    ensures refused { IfErr result (λ stop. IfRefused stop (λ due. (around : Around) → Refuses tokens.old (sequence_or_type place around) tokens.new due)) }
{
    let ty = sequence_head(alloc, tokens)?;
    sequence(place, ty, exprs(alloc, false, tokens))
}

/// An expression, and the closing bracket behind it.
#[cycle(expression)]
pub fn closed_expression(alloc: Global, tokens: &mut Cursor<'_, '_>) -> Result<Expr, Stop>
    ensures reads { IfOk result (λ expr. (at : Around) (to : ExprTree → State) → ClosesExpr at to → Moves tokens.old (want at) tokens.new (to (expr_tree expr))) }
    ensures shorter { OnOk result (length (ahead tokens.new) < length (ahead tokens.old)) }
    ensures refused { IfErr result (λ stop. IfRefused stop (λ due. (at : Around) (to : ExprTree → State) → ClosesExpr at to → Refuses tokens.old (want at) tokens.new due)) }
{
    let inner = expression(alloc, 0, tokens)?;
    kept(inner, tokens.expect(TokenKind::RightParen))
}

/// The inside of round brackets behind a head, up to the closing one.
#[cycle(expression)]
fn brackets(alloc: Global, tokens: &mut Cursor<'_, '_>) -> Result<BracketForm, Stop>
    ensures reads { IfOk result (λ inside. (head : ExprTree) (around : Around) → Moves tokens.old (argument_or_end head [] around) tokens.new (have (whole_of (applied_tree head inside)) around)) }
    ensures shorter { OnOk result (length (ahead tokens.new) < length (ahead tokens.old)) }
    ensures refused { IfErr result (λ stop. IfRefused stop (λ due. (head : ExprTree) (around : Around) → Refuses tokens.old (argument_or_end head [] around) tokens.new due)) }
{
    if tokens.take(TokenKind::RightParen) {
        return Ok(BracketForm::Arguments(Items::new(alloc)));
    }
    let first = expression(alloc, 0, tokens)?;
    if tokens.take(TokenKind::TildeArrow) {
        return update(first, closed_expression(alloc, tokens));
    }
    let mut arguments = one(alloc, first)?;
    let end = add_arguments(alloc, &mut arguments, tokens);
    arguments_of(arguments, end)
}

/// Adds the arguments behind the first, up to the closing bracket.
#[cycle(expression)]
fn add_arguments(
    alloc: Global,
    list: &mut Items<Expr>,
    tokens: &mut Cursor<'_, '_>,
) -> Result<(), Stop>
    ensures reads { OnOk result ((first : TheExpr) (head : ExprTree) (around : Around) → IsFirstArgument first list.old (ahead tokens.old)
        → Moves tokens.old (have (whole_of (expr_tree first)) (argument_of head [] around)) tokens.new (have (whole_of (application head (map expr_tree list.new))) around)) }
    ensures shorter { OnOk result (length (ahead tokens.new) < length (ahead tokens.old)) }
    ensures refused { IfErr result (λ stop. IfRefused stop (λ due. (first : TheExpr) (head : ExprTree) (around : Around) → IsFirstArgument first list.old (ahead tokens.old)
        → Refuses tokens.old (have (whole_of (expr_tree first)) (argument_of head [] around)) tokens.new due)) }
{
    if tokens.take(TokenKind::Comma) {
        return add_exprs(alloc, list, tokens);
    }
    tokens.expect(TokenKind::RightParen)
}

/// Refuses the end of a list before its first expression, where some are due.
fn refuse_empty(some: bool, tokens: &Cursor<'_, '_>) -> Result<(), Stop>
    ensures begun { OnOk result (IsTrue some → begins kind.RightParen (ahead tokens.now) ≡ false) }
    ensures refused { IfErr result (λ stop. IfRefused stop (λ due. (list : ExprList) → Refuses tokens.now (if some then want (list.member []) else list.member_or_end []) tokens.now due)) }
{
    if !some {
        return Ok(());
    }
    if tokens.is_at(TokenKind::RightParen) {
        return Err(Stop::Refused(Due::Operand));
    }
    Ok(())
}

/// The expressions of a list, up to its closing bracket. Where some are due, there is one at least.
#[cycle(expression)]
pub fn exprs(alloc: Global, some: bool, tokens: &mut Cursor<'_, '_>) -> Result<Items<Expr>, Stop>
    ensures reads { IfOk result (λ exprs. (list : ExprList) → ReadsExprs list 0 → Moves tokens.old (if some then want (list.member []) else list.member_or_end []) tokens.new (list.over (map expr_tree exprs))) }
    ensures shorter { OnOk result (length (ahead tokens.new) < length (ahead tokens.old)) }
    ensures refused { IfErr result (λ stop. IfRefused stop (λ due. (list : ExprList) → ReadsExprs list 0 → Refuses tokens.old (if some then want (list.member []) else list.member_or_end []) tokens.new due)) }
{
    refuse_empty(some, tokens)?;
    let mut list = Items::new(alloc);
    let end = add_exprs(alloc, &mut list, tokens);
    kept(list, end)
}

/// Adds the expressions of a list, up to its closing bracket.
#[cycle(expression)]
fn add_exprs(alloc: Global, list: &mut Items<Expr>, tokens: &mut Cursor<'_, '_>) -> Result<(), Stop>
    ensures reads { OnOk result ((all : ExprList) → ReadsExprs all (length list.old) → Moves tokens.old (all.member_or_end (map expr_tree list.old)) tokens.new (all.over (map expr_tree list.new))) }
    ensures shorter { OnOk result (length (ahead tokens.new) < length (ahead tokens.old)) }
    ensures refused { IfErr result (λ stop. IfRefused stop (λ due. (all : ExprList) → ReadsExprs all (length list.old) → Refuses tokens.old (all.member_or_end (map expr_tree list.old)) tokens.new due)) }
{
    let mut more = !tokens.take(TokenKind::RightParen);
    'members: while more {
        let member = expression(alloc, 0, tokens)?;
        list.push(member)?;
        more = tokens.goes_on(TokenKind::Comma, TokenKind::RightParen)?;
    }
    Ok(())
}

/// The range of a quantifier, up to the closing bracket.
#[cycle(expression)]
fn range(alloc: Global, tokens: &mut Cursor<'_, '_>) -> Result<RangeForm, Stop>
    ensures reads { IfOk result (λ range. (by : TheQuantifier) (place : ThePlace) (around : Around) → Moves tokens.old (want (low_of by place around)) tokens.new (bound_left by place (range_form range) around)) }
    ensures shorter { OnOk result (length (ahead tokens.new) < length (ahead tokens.old)) }
    ensures refused { IfErr result (λ stop. IfRefused stop (λ due. (by : TheQuantifier) (place : ThePlace) (around : Around) → Refuses tokens.old (want (low_of by place around)) tokens.new due)) }
{
    let operand = operand(alloc, tokens)?;
    match indices_head(operand, tokens.is_at(TokenKind::RightParen)) {
        Ok(head) => {
            tokens.advance();
            Ok(RangeForm::IndicesOf(head))
        }
        Err(operand) => bounds(alloc, operand, tokens),
    }
}

/// The bounds of a range, behind the operand with which the lower one begins.
#[cycle(expression)]
fn bounds(
    alloc: Global,
    operand: OperandForm,
    tokens: &mut Cursor<'_, '_>,
) -> Result<RangeForm, Stop>
    requires ends { ends_operand (ahead tokens.old) ≡ true }
    requires no_range { IsNoRange (operand_form operand) (begins kind.RightParen (ahead tokens.old)) }
    ensures reads { IfOk result (λ range. (by : TheQuantifier) (place : ThePlace) (around : Around) → Moves tokens.old (have (operand_form operand) (low_of by place around)) tokens.new (bound_left by place (range_form range) around)) }
    ensures shorter { OnOk result (length (ahead tokens.new) < length (ahead tokens.old)) }
    ensures refused { IfErr result (λ stop. IfRefused stop (λ due. (by : TheQuantifier) (place : ThePlace) (around : Around) → Refuses tokens.old (have (operand_form operand) (low_of by place around)) tokens.new due)) }
{
    let left = whole(alloc, operand)?;
    let low = operators(alloc, left, 0, tokens)?;
    between(low, upper_bound(alloc, tokens))
}

/// The word behind the lower bound of a range, and the upper bound up to the closing bracket.
#[cycle(expression)]
fn upper_bound(alloc: Global, tokens: &mut Cursor<'_, '_>) -> Result<Expr, Stop>
    ensures reads { IfOk result (λ expr. (from : State) (at : Around) (to : ExprTree → State) → Expects kind.Until (ahead tokens.old) from (want at) → ClosesExpr at to
        → Moves tokens.old from tokens.new (to (expr_tree expr))) }
    ensures shorter { OnOk result (length (ahead tokens.new) < length (ahead tokens.old)) }
    ensures refused { IfErr result (λ stop. IfRefused stop (λ due. (from : State) (at : Around) (to : ExprTree → State) → Expects kind.Until (ahead tokens.old) from (want at) → ClosesExpr at to
        → Refuses tokens.old from tokens.new due)) }
{
    tokens.expect(TokenKind::Until)?;
    closed_expression(alloc, tokens)
}

/// Whose indices an operand that is closed then is, or else the operand.
fn indices_head(operand: OperandForm, closed: bool) -> Result<Expr, OperandForm>
    ensures { MatchResult result (λ head. IsTrue closed × IsIndicesOf (operand_form operand) (expr_tree head)) (λ same. (same ≡ operand) × IsNoRange (operand_form operand) closed) }
{
    match operand {
        OperandForm::Dotted(head, name) => {
            if closed && is_indices(&name) {
                return Ok(head);
            }
            Err(OperandForm::Dotted(head, name))
        }
        OperandForm::Whole(expr) => Err(OperandForm::Whole(expr)),
    }
}

/// Whether the name is the word of a range.
fn is_indices(name: &Name) -> bool
    ensures { result ≡ bytes_eq name.now.text (codes "indices") }
{
    name.text.as_str() == "indices"
}

/// A quantifier, from behind its word on.
#[cycle(expression)]
fn quantified(
    alloc: Global,
    by: Quantifier,
    place: Place,
    tokens: &mut Cursor<'_, '_>,
) -> Result<Expr, Stop>
    ensures reads { IfOk result (λ expr. (around : Around) → Moves tokens.old (range_left by place around) tokens.new (have (whole_of (expr_tree expr)) around)) }
    ensures shorter { OnOk result (length (ahead tokens.new) < length (ahead tokens.old)) }
    ensures refused { IfErr result (λ stop. IfRefused stop (λ due. (around : Around) → Refuses tokens.old (range_left by place around) tokens.new due)) }
{
    tokens.expect(TokenKind::LeftParen)?;
    let (range, variable) = bound_range(alloc, tokens)?;
    quantify(
        alloc,
        by,
        place,
        range,
        variable,
        closed_expression(alloc, tokens),
    )
}

/// The range and the variable of a quantifier, up to the arrow.
#[cycle(expression)]
fn bound_range(alloc: Global, tokens: &mut Cursor<'_, '_>) -> Result<(RangeForm, Name), Stop>
    ensures reads { IfOk result (λ bound. (by : TheQuantifier) (place : ThePlace) (around : Around) → Moves tokens.old (want (low_of by place around)) tokens.new (want (body_around by place (range_form bound.0) bound.1 around))) }
    ensures shorter { OnOk result (length (ahead tokens.new) < length (ahead tokens.old)) }
    ensures refused { IfErr result (λ stop. IfRefused stop (λ due. (by : TheQuantifier) (place : ThePlace) (around : Around) → Refuses tokens.old (want (low_of by place around)) tokens.new due)) }
{
    let range = range(alloc, tokens)?;
    beside(range, bound_name(alloc, tokens))
}

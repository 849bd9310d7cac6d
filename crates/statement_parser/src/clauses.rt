ghost use Rattle.std.specs.Prelude.{◌≡◌, ◌<◌, ◌≤◌, List, [], map, length, IfOk, IfErr, OnOk};
ghost use Rattle.slang_tree.specs.declared.place.Place.{Place as ThePlace};
ghost use Rattle.slang_tree.specs.declared.expression.Name.{Name as TheName};
ghost use Rattle.slang_tree.specs.ExprTree.{ExprTree, expr_tree};
ghost use Rattle.slang_machine.specs.Open.{Draft, Within, ClaimWord};
ghost use Rattle.slang_machine.specs.States.{NamesOf, loop_names, names_due, first_name, claims_due, loop_claim_end, invariant_due, invariant_left, invariant_end};
ghost use Rattle.slang_machine.specs.Statements.{end_names, end_claims};
ghost use Rattle.token_cursor.specs.Gives.{ahead, IfRefused, Moves, Refuses};
ghost use Rattle.statement_parser.specs.Expects.{head_of_loop};

use expression_parser::{beside, exprs};
use slang_lexer::TokenKind;
use slang_tree::{Expr, Name};
use sqlite_items::Items;
use std::alloc::Global;
use token_cursor::{Cursor, Due, Stop, kept, name};

/// Names in round brackets, one at least.
pub fn names(alloc: Global, tokens: &mut Cursor<'_, '_>) -> Result<Items<Name>, Stop>
    ensures reads { IfOk result (λ names. (of : NamesOf) → Moves tokens.old (names_due of) tokens.new (end_names names of)) }
    ensures shorter { OnOk result (length (ahead tokens.new) < length (ahead tokens.old)) }
    ensures refused { IfErr result (λ stop. IfRefused stop (λ due. (of : NamesOf) → Refuses tokens.old (names_due of) tokens.new due)) }
{
    tokens.expect(TokenKind::LeftParen)?;
    let mut list = Items::new(alloc);
    let end = add_names(alloc, &mut list, tokens);
    kept(list, end)
}

/// Adds the names of a list, one at least, up to its closing bracket.
fn add_names(alloc: Global, list: &mut Items<Name>, tokens: &mut Cursor<'_, '_>) -> Result<(), Stop>
    requires { list.old ≡ [] }
    ensures reads { OnOk result ((of : NamesOf) → Moves tokens.old (first_name of) tokens.new (end_names list.new of)) }
    ensures no_longer { OnOk result (length (ahead tokens.new) ≤ length (ahead tokens.old)) }
    ensures refused { IfErr result (λ stop. IfRefused stop (λ due. (of : NamesOf) → Refuses tokens.old (first_name of) tokens.new due)) }
{
    let mut more = true;
    'members: while more {
        let member = name(alloc, tokens)?;
        list.push(member)?;
        more = tokens.goes_on(TokenKind::Comma, TokenKind::RightParen)?;
    }
    Ok(())
}

/// Claims in round brackets, one at least.
pub fn claims(alloc: Global, tokens: &mut Cursor<'_, '_>) -> Result<Items<Expr>, Stop>
    ensures reads { IfOk result (λ claims. (word : ClaimWord) (draft : Draft) → Moves tokens.old (claims_due word draft) tokens.new (end_claims word (map expr_tree claims) draft)) }
    ensures shorter { OnOk result (length (ahead tokens.new) < length (ahead tokens.old)) }
    ensures refused { IfErr result (λ stop. IfRefused stop (λ due. (word : ClaimWord) (draft : Draft) → Refuses tokens.old (claims_due word draft) tokens.new due)) }
{
    tokens.expect(TokenKind::LeftParen)?;
    exprs(alloc, true, tokens)
}

/// The claims of an invariant behind its names, up to the closing bracket.
fn claims_behind(alloc: Global, tokens: &mut Cursor<'_, '_>) -> Result<Items<Expr>, Stop>
    ensures reads { IfOk result (λ claims. (place : ThePlace) (test : ExprTree) (names : List TheName) (at : Within) →
        Moves tokens.old (loop_claim_end (head_of_loop place test names [] at)) tokens.new (invariant_end (head_of_loop place test names (map expr_tree claims) at))) }
    ensures shorter { OnOk result (length (ahead tokens.new) < length (ahead tokens.old)) }
    ensures refused { IfErr result (λ stop. IfRefused stop (λ due. (place : ThePlace) (test : ExprTree) (names : List TheName) (at : Within) →
        Refuses tokens.old (loop_claim_end (head_of_loop place test names [] at)) tokens.new due)) }
{
    if tokens.take(TokenKind::Comma) {
        return exprs(alloc, false, tokens);
    }
    tokens.expect(TokenKind::RightParen)?;
    Ok(Items::new(alloc))
}

/// The word `Invariant`, which is due.
fn invariant_word(tokens: &mut Cursor<'_, '_>) -> Result<(), Stop>
    ensures reads { OnOk result ((place : ThePlace) (test : ExprTree) (at : Within) → Moves tokens.old (invariant_due place test at) tokens.new (invariant_left place test at)) }
    ensures shorter { OnOk result (length (ahead tokens.new) < length (ahead tokens.old)) }
    ensures refused { IfErr result (λ stop. IfRefused stop (λ due. (place : ThePlace) (test : ExprTree) (at : Within) → Refuses tokens.old (invariant_due place test at) tokens.new due)) }
{
    if tokens.take(TokenKind::Invariant) {
        Ok(())
    } else {
        Err(Stop::Refused(Due::Invariant))
    }
}

/// The word `Invariant`, the bracket behind it, and `Modifies`.
fn invariant_head(tokens: &mut Cursor<'_, '_>) -> Result<(), Stop>
    ensures reads { OnOk result ((place : ThePlace) (test : ExprTree) (at : Within) → Moves tokens.old (invariant_due place test at) tokens.new (names_due (loop_names place test at))) }
    ensures shorter { OnOk result (length (ahead tokens.new) < length (ahead tokens.old)) }
    ensures refused { IfErr result (λ stop. IfRefused stop (λ due. (place : ThePlace) (test : ExprTree) (at : Within) → Refuses tokens.old (invariant_due place test at) tokens.new due)) }
{
    invariant_word(tokens)?;
    tokens.expect(TokenKind::LeftParen)?;
    tokens.expect(TokenKind::Modifies)
}

/// An invariant, which is due: the names and the claims.
pub fn invariant(
    alloc: Global,
    tokens: &mut Cursor<'_, '_>,
) -> Result<(Items<Name>, Items<Expr>), Stop>
    ensures reads { IfOk result (λ read. (place : ThePlace) (test : ExprTree) (at : Within) →
        Moves tokens.old (invariant_due place test at) tokens.new (invariant_end (head_of_loop place test read.0 (map expr_tree read.1) at))) }
    ensures shorter { OnOk result (length (ahead tokens.new) < length (ahead tokens.old)) }
    ensures refused { IfErr result (λ stop. IfRefused stop (λ due. (place : ThePlace) (test : ExprTree) (at : Within) → Refuses tokens.old (invariant_due place test at) tokens.new due)) }
{
    invariant_head(tokens)?;
    let modifies = names(alloc, tokens)?;
    beside(modifies, claims_behind(alloc, tokens))
}

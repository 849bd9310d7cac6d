ghost use Rattle.std.specs.Prelude.{◌≡◌, ◌<◌, ◌≤◌, ◌+◌, List, length, IfOk, IfErr, OnOk, true, false, ℕ};
ghost use Rattle.slang_lexer.specs.declared.token.TokenKind.TheVariants as kind;
ghost use Rattle.slang_tree.specs.declared.expression.Expr.{Expr as TheExpr};
ghost use Rattle.slang_tree.specs.ExprTree.{expr_tree};
ghost use Rattle.slang_tree.specs.DeclTree.{DeclTree, return_tree};
ghost use Rattle.slang_tokens.specs.Tok.{tok};
ghost use Rattle.slang_machine.specs.Open.{Draft, requiring, ensuring};
ghost use Rattle.slang_machine.specs.States.{contract_names, clauses_due, clause_or_end, clause_end, claims_due, names_due, part_or_end, part_end};
ghost use Rattle.slang_machine.specs.Statements.{end_method};
ghost use Rattle.token_cursor.specs.Gives.{ahead, IfRefused, Moves, Refuses};
ghost use Rattle.token_cursor.specs.Lists.{begins};
ghost use Rattle.method_parser.specs.Bodies.{draft_of, returned_to, IsStmtPart, clause_head_of, clause_order, behind_clause, part_head, part_order};

use expression_parser::expression;
use slang_lexer::TokenKind;
use slang_tokens::Lexeme;
use slang_tree::{Expr, MethodDecl, Place, Return};
use statement_parser::{claims, names, stmt};
use std::alloc::Global;
use token_cursor::{Cursor, Due, Stop, is};

/// A clause of a contract.
#[derive(Clone, Copy)]
enum ClauseHead {
    Requires,
    Modifies,
    Ensures,
}

/// The clause that a token begins.
fn clause_head_of(token: &Lexeme<'_>) -> Option<ClauseHead>
    ensures { result ≡ clause_head_of (tok token.now) }
{
    if is(TokenKind::Requires, token) {
        return Some(ClauseHead::Requires);
    }
    if is(TokenKind::Modifies, token) {
        return Some(ClauseHead::Modifies);
    }
    is(TokenKind::Ensures, token).then_some(ClauseHead::Ensures)
}

/// Where a clause stands among the others.
fn clause_order(head: ClauseHead) -> u8
    ensures value { result ≡ clause_order head }
    ensures small { result ≤ 2 }
{
    match head {
        ClauseHead::Requires => 0,
        ClauseHead::Modifies => 1,
        ClauseHead::Ensures => 2,
    }
}

/// Goes behind the word of a clause, which is due, of this order or a later one.
fn begin_clause(least: u8, tokens: &mut Cursor<'_, '_>) -> Result<ClauseHead, Stop>
    ensures reads { IfOk result (λ head. (draft : Draft) → begins kind.RightParen (ahead tokens.old) ≡ false → Moves tokens.old (clause_or_end least draft) tokens.new (behind_clause draft head)) }
    ensures shorter { OnOk result (length (ahead tokens.new) < length (ahead tokens.old)) }
    ensures refused { IfErr result (λ stop. IfRefused stop (λ due. (draft : Draft) → begins kind.RightParen (ahead tokens.old) ≡ false → Refuses tokens.old (clause_or_end least draft) tokens.new due)) }
{
    let Some(token) = tokens.first() else {
        return Err(Stop::Refused(Due::Other));
    };
    let Some(head) = clause_head_of(token) else {
        return Err(Stop::Refused(Due::Other));
    };
    if clause_order(head) < least {
        return Err(Stop::Refused(Due::Other));
    }
    tokens.advance();
    Ok(head)
}

/// The claims of `Requires`, from behind the word on, into the method.
fn add_requires(
    alloc: Global,
    method: &mut MethodDecl,
    tokens: &mut Cursor<'_, '_>,
) -> Result<(), Stop>
    ensures reads { OnOk result ((done : List DeclTree) → Moves tokens.old (claims_due requiring (draft_of done method.old)) tokens.new (clause_end 1 (draft_of done method.new))) }
    ensures shorter { OnOk result (length (ahead tokens.new) < length (ahead tokens.old)) }
    ensures refused { IfErr result (λ stop. IfRefused stop (λ due. (done : List DeclTree) → Refuses tokens.old (claims_due requiring (draft_of done method.old)) tokens.new due)) }
{
    method.requires_ = claims(alloc, tokens)?;
    Ok(())
}

/// The names of `Modifies`, from behind the word on, into the method.
fn add_modifies(
    alloc: Global,
    method: &mut MethodDecl,
    tokens: &mut Cursor<'_, '_>,
) -> Result<(), Stop>
    ensures reads { OnOk result ((done : List DeclTree) → Moves tokens.old (names_due (contract_names (draft_of done method.old))) tokens.new (clause_end 2 (draft_of done method.new))) }
    ensures shorter { OnOk result (length (ahead tokens.new) < length (ahead tokens.old)) }
    ensures refused { IfErr result (λ stop. IfRefused stop (λ due. (done : List DeclTree) → Refuses tokens.old (names_due (contract_names (draft_of done method.old))) tokens.new due)) }
{
    method.modifies = names(alloc, tokens)?;
    Ok(())
}

/// The claims of `Ensures`, from behind the word on, into the method.
fn add_ensures(
    alloc: Global,
    method: &mut MethodDecl,
    tokens: &mut Cursor<'_, '_>,
) -> Result<(), Stop>
    ensures reads { OnOk result ((done : List DeclTree) → Moves tokens.old (claims_due ensuring (draft_of done method.old)) tokens.new (clause_end 3 (draft_of done method.new))) }
    ensures shorter { OnOk result (length (ahead tokens.new) < length (ahead tokens.old)) }
    ensures refused { IfErr result (λ stop. IfRefused stop (λ due. (done : List DeclTree) → Refuses tokens.old (claims_due ensuring (draft_of done method.old)) tokens.new due)) }
{
    method.ensures_ = claims(alloc, tokens)?;
    Ok(())
}

/// A clause, from behind its word on, into the method.
fn clause_behind(
    alloc: Global,
    method: &mut MethodDecl,
    head: ClauseHead,
    tokens: &mut Cursor<'_, '_>,
) -> Result<(), Stop>
    ensures reads { OnOk result ((done : List DeclTree) → Moves tokens.old (behind_clause (draft_of done method.old) head) tokens.new (clause_end (clause_order head + 1) (draft_of done method.new))) }
    ensures shorter { OnOk result (length (ahead tokens.new) < length (ahead tokens.old)) }
    ensures refused { IfErr result (λ stop. IfRefused stop (λ due. (done : List DeclTree) → Refuses tokens.old (behind_clause (draft_of done method.old) head) tokens.new due)) }
{
    match head {
        ClauseHead::Requires => add_requires(alloc, method, tokens),
        ClauseHead::Modifies => add_modifies(alloc, method, tokens),
        ClauseHead::Ensures => add_ensures(alloc, method, tokens),
    }
}

/// A clause, which is due, into the method. Tells the order from which another may follow.
fn clause(
    alloc: Global,
    method: &mut MethodDecl,
    least: u8,
    tokens: &mut Cursor<'_, '_>,
) -> Result<u8, Stop>
    ensures reads { IfOk result (λ next. (done : List DeclTree) → begins kind.RightParen (ahead tokens.old) ≡ false
        → Moves tokens.old (clause_or_end least (draft_of done method.old)) tokens.new (clause_end next (draft_of done method.new))) }
    ensures shorter { OnOk result (length (ahead tokens.new) < length (ahead tokens.old)) }
    ensures refused { IfErr result (λ stop. IfRefused stop (λ due. (done : List DeclTree) → begins kind.RightParen (ahead tokens.old) ≡ false
        → Refuses tokens.old (clause_or_end least (draft_of done method.old)) tokens.new due)) }
{
    let head = begin_clause(least, tokens)?;
    clause_behind(alloc, method, head, tokens)?;
    Ok(clause_order(head) + 1)
}

/// A contract, from behind its word on, into the method.
fn contract(alloc: Global, method: &mut MethodDecl, tokens: &mut Cursor<'_, '_>) -> Result<(), Stop>
    ensures reads { OnOk result ((done : List DeclTree) → Moves tokens.old (clauses_due (draft_of done method.old)) tokens.new (part_end 1 (draft_of done method.new))) }
    ensures shorter { OnOk result (length (ahead tokens.new) < length (ahead tokens.old)) }
    ensures refused { IfErr result (λ stop. IfRefused stop (λ due. (done : List DeclTree) → Refuses tokens.old (clauses_due (draft_of done method.old)) tokens.new due)) }
{
    tokens.expect(TokenKind::LeftParen)?;
    clauses(alloc, method, tokens)
}

/// The clauses of a contract, up to the closing bracket, into the method.
fn clauses(alloc: Global, method: &mut MethodDecl, tokens: &mut Cursor<'_, '_>) -> Result<(), Stop>
    ensures reads { OnOk result ((done : List DeclTree) → Moves tokens.old (clause_or_end 0 (draft_of done method.old)) tokens.new (part_end 1 (draft_of done method.new))) }
    ensures no_longer { OnOk result (length (ahead tokens.new) ≤ length (ahead tokens.old)) }
    ensures refused { IfErr result (λ stop. IfRefused stop (λ due. (done : List DeclTree) → Refuses tokens.old (clause_or_end 0 (draft_of done method.old)) tokens.new due)) }
{
    let mut least = 0;
    let mut more = !tokens.take(TokenKind::RightParen);
    'clauses: while more {
        least = clause(alloc, method, least, tokens)?;
        more = tokens.goes_on(TokenKind::Comma, TokenKind::RightParen)?;
    }
    Ok(())
}

/// What a part of a body is.
#[derive(Clone, Copy)]
enum PartHead {
    Contract,
    Stmt,
    Return,
}

/// Where a part stands among the others.
fn part_order(head: PartHead) -> u8
    ensures { result ≡ part_order head }
{
    match head {
        PartHead::Contract => 0,
        PartHead::Stmt => 1,
        PartHead::Return => 2,
    }
}

/// What the next part of a body is, where it does not end.
fn part_head(tokens: &Cursor<'_, '_>) -> PartHead
    ensures { result ≡ part_head (ahead tokens.now) }
{
    if tokens.is_at(TokenKind::Contract) {
        return PartHead::Contract;
    }
    if tokens.is_at(TokenKind::Return) {
        return PartHead::Return;
    }
    PartHead::Stmt
}

/// A contract, whose word comes next, into the method.
fn contract_part(
    alloc: Global,
    method: &mut MethodDecl,
    tokens: &mut Cursor<'_, '_>,
) -> Result<u8, Stop>
    ensures reads { IfOk result (λ next. (least : ℕ) (done : List DeclTree) → least ≤ 0 → begins kind.Contract (ahead tokens.old) ≡ true
        → Moves tokens.old (part_or_end least (draft_of done method.old)) tokens.new (part_end next (draft_of done method.new))) }
    ensures no_longer { OnOk result (length (ahead tokens.new) ≤ length (ahead tokens.old)) }
    ensures refused { IfErr result (λ stop. IfRefused stop (λ due. (least : ℕ) (done : List DeclTree) → least ≤ 0 → begins kind.Contract (ahead tokens.old) ≡ true
        → Refuses tokens.old (part_or_end least (draft_of done method.old)) tokens.new due)) }
{
    tokens.advance();
    contract(alloc, method, tokens)?;
    Ok(1)
}

/// A statement of a body, which is due, into the method.
fn stmt_part(
    alloc: Global,
    method: &mut MethodDecl,
    tokens: &mut Cursor<'_, '_>,
) -> Result<u8, Stop>
    ensures reads { IfOk result (λ next. (least : ℕ) (done : List DeclTree) → IsStmtPart least (ahead tokens.old)
        → Moves tokens.old (part_or_end least (draft_of done method.old)) tokens.new (part_end next (draft_of done method.new))) }
    ensures shorter { OnOk result (length (ahead tokens.new) < length (ahead tokens.old)) }
    ensures refused { IfErr result (λ stop. IfRefused stop (λ due. (least : ℕ) (done : List DeclTree) → IsStmtPart least (ahead tokens.old)
        → Refuses tokens.old (part_or_end least (draft_of done method.old)) tokens.new due)) }
{
    let stmt = stmt(alloc, tokens)?;
    method.body.push(stmt)?;
    Ok(1)
}

/// A return of its parts.
fn return_of(place: Place, value: Result<Expr, Stop>) -> Result<Return, Stop>
    ensures made { IfOk result (λ made. (read : TheExpr) × (value ≡ Ok read) × (return_tree made ≡ record { place = place; value = expr_tree read })) }
    ensures refused { IfErr result (λ stop. IfRefused stop (λ due. value ≡ Err stop)) }
{
    Ok(Return {
        place,
        value: value?,
    })
}

/// A return, whose word comes next.
fn return_value(alloc: Global, tokens: &mut Cursor<'_, '_>) -> Result<Return, Stop>
    ensures reads { IfOk result (λ returned. (least : ℕ) (draft : Draft) → least ≤ 2 → begins kind.Return (ahead tokens.old) ≡ true
        → Moves tokens.old (part_or_end least draft) tokens.new (part_end 3 (returned_to draft (return_tree returned)))) }
    ensures shorter { OnOk result (length (ahead tokens.new) < length (ahead tokens.old)) }
    ensures refused { IfErr result (λ stop. IfRefused stop (λ due. (least : ℕ) (draft : Draft) → least ≤ 2 → begins kind.Return (ahead tokens.old) ≡ true
        → Refuses tokens.old (part_or_end least draft) tokens.new due)) }
{
    let Some(token) = tokens.first() else {
        return Err(Stop::Refused(Due::Other));
    };
    tokens.advance();
    return_of(token.place, expression(alloc, 0, tokens))
}

/// A return, whose word comes next, into the method.
fn return_part(
    alloc: Global,
    method: &mut MethodDecl,
    tokens: &mut Cursor<'_, '_>,
) -> Result<u8, Stop>
    ensures reads { IfOk result (λ next. (least : ℕ) (done : List DeclTree) → least ≤ 2 → begins kind.Return (ahead tokens.old) ≡ true
        → Moves tokens.old (part_or_end least (draft_of done method.old)) tokens.new (part_end next (draft_of done method.new))) }
    ensures shorter { OnOk result (length (ahead tokens.new) < length (ahead tokens.old)) }
    ensures refused { IfErr result (λ stop. IfRefused stop (λ due. (least : ℕ) (done : List DeclTree) → least ≤ 2 → begins kind.Return (ahead tokens.old) ≡ true
        → Refuses tokens.old (part_or_end least (draft_of done method.old)) tokens.new due)) }
{
    let returned = return_value(alloc, tokens)?;
    method.returned = Some(returned);
    Ok(3)
}

/// A part of a body, which is due, into the method. Tells the order from which another may follow.
fn part(
    alloc: Global,
    method: &mut MethodDecl,
    least: u8,
    tokens: &mut Cursor<'_, '_>,
) -> Result<u8, Stop>
    ensures reads { IfOk result (λ next. (done : List DeclTree) → begins kind.RightBrace (ahead tokens.old) ≡ false
        → Moves tokens.old (part_or_end least (draft_of done method.old)) tokens.new (part_end next (draft_of done method.new))) }
    ensures no_longer { OnOk result (length (ahead tokens.new) ≤ length (ahead tokens.old)) }
    ensures refused { IfErr result (λ stop. IfRefused stop (λ due. (done : List DeclTree) → begins kind.RightBrace (ahead tokens.old) ≡ false
        → Refuses tokens.old (part_or_end least (draft_of done method.old)) tokens.new due)) }
{
    let head = part_head(tokens);
    if part_order(head) < least {
        return Err(Stop::Refused(Due::Other));
    }
    match head {
        PartHead::Contract => contract_part(alloc, method, tokens),
        PartHead::Stmt => stmt_part(alloc, method, tokens),
        PartHead::Return => return_part(alloc, method, tokens),
    }
}

/// The body of a method, from behind the brace that opens it up to the one that closes it, into the method.
pub fn body(alloc: Global, method: &mut MethodDecl, tokens: &mut Cursor<'_, '_>) -> Result<(), Stop>
    ensures reads { OnOk result ((done : List DeclTree) → Moves tokens.old (part_or_end 0 (draft_of done method.old)) tokens.new (end_method (draft_of done method.new))) }
    ensures no_longer { OnOk result (length (ahead tokens.new) ≤ length (ahead tokens.old)) }
    ensures refused { IfErr result (λ stop. IfRefused stop (λ due. (done : List DeclTree) → Refuses tokens.old (part_or_end 0 (draft_of done method.old)) tokens.new due)) }
{
    let mut least = 0;
    let mut more = !tokens.take(TokenKind::RightBrace);
    'parts: while more {
        least = part(alloc, method, least, tokens)?;
        more = tokens.goes_on(TokenKind::Newline, TokenKind::RightBrace)?;
    }
    Ok(())
}

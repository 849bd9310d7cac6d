ghost use Rattle.std.specs.Prelude.{◌≡◌, ◌<◌, ◌≤◌, List, [], ◌∷◌, map, length, Option, IfOk, IfErr, OnOk, IsTrue, true, false, if◌then◌else◌, Bool};
ghost use Rattle.std.specs.Option.{option_map};
ghost use Rattle.slang_lexer.specs.declared.token.TokenKind.TheVariants as kind;
ghost use Rattle.slang_tree.specs.declared.expression.Name.{Name as TheName};
ghost use Rattle.slang_tree.specs.declared.expression.Expr.{Expr as TheExpr};
ghost use Rattle.slang_tree.specs.declared.statement.Stmt.{Stmt as TheStmt};
ghost use Rattle.slang_tree.specs.declared.place.Place.{Place as ThePlace};
ghost use Rattle.slang_tree.specs.TypeTree.{type_tree};
ghost use Rattle.slang_tree.specs.ExprTree.{ExprTree, expr_tree, exprs_of};
ghost use Rattle.slang_tree.specs.StmtTree as s;
ghost use Rattle.slang_tree.specs.StmtTree.{StmtTree, StmtTrees, stmt_tree, stmts_of, else_of};
ghost use Rattle.slang_tokens.specs.Tok.{tok};
ghost use Rattle.slang_grammar.specs.Statements.{value_tree};
ghost use Rattle.slang_machine.specs.Open.{Around, Block, Target, Within, with_stmt, put, value_of as for_value, test_of_loop, alone as alone_for};
ghost use Rattle.slang_machine.specs.States.{State, want, value_name, value_type, name_seen, if_left, then_due, else_or_end, else_due, loop_left, invariant_due, invariant_end, assert_left, steps_left, stmt_or_end};
ghost use Rattle.slang_machine.specs.Expressions.{name_of};
ghost use Rattle.slang_machine.specs.Statements.{after_stmt, after_loop, loop_block};
ghost use Rattle.token_cursor.specs.Outcome.{outcome};
ghost use Rattle.token_cursor.specs.Gives.{ahead, IfRefused, Moves, Refuses, Expects};
ghost use Rattle.token_cursor.specs.Lists.{begins};
ghost use Rattle.expression_parser.specs.Expects.{ClosesExpr};
ghost use Rattle.statement_parser.specs.Expects.{BeginsStmt, ClosesBlock, within, head_of_loop};
ghost use Rattle.statement_parser.specs.Heads.{stmt_head_of, behind_stmt_head};

use crate::clauses::invariant;
use crate::steps::steps;
use expression_parser::{beside, closed_expression, expression, exprs};
use owned_results::{all_three, both};
use slang_lexer::TokenKind;
use slang_tokens::Lexeme;
use slang_tree::{Expr, Name, Place, Stmt, TypeName};
use sqlite_items::Items;
use std::alloc::Global;
use token_cursor::{Cursor, Due, Stop, is, is_name, kept, name, name_of, optional_type};

/// The word or name that a statement begins with.
#[derive(Clone, Copy)]
enum StmtHead {
    /// `val`, which is fixed, or `var`.
    Value(bool),
    Name,
    If,
    While,
    Assert,
    Deduce,
}

/// What a token begins where a statement may come.
fn stmt_head_of(token: &Lexeme<'_>) -> Option<StmtHead>
    ensures { result ≡ stmt_head_of (tok token.now) }
{
    if is(TokenKind::Val, token) {
        return Some(StmtHead::Value(true));
    }
    if is(TokenKind::Var, token) {
        return Some(StmtHead::Value(false));
    }
    if is_name(token) {
        return Some(StmtHead::Name);
    }
    if is(TokenKind::If, token) {
        return Some(StmtHead::If);
    }
    if is(TokenKind::While, token) {
        return Some(StmtHead::While);
    }
    if is(TokenKind::Assert, token) {
        return Some(StmtHead::Assert);
    }
    is(TokenKind::Deduce, token).then_some(StmtHead::Deduce)
}

/// Goes behind the token that begins a statement, which is due, and tells what it begins.
fn begin_stmt<'t, 'a>(tokens: &mut Cursor<'t, 'a>) -> Result<(StmtHead, &'t Lexeme<'a>), Stop>
    ensures reads { IfOk result (λ r. (from : State) (at : Within) → BeginsStmt (ahead tokens.old) from at → outcome from (ahead tokens.old) ≡ outcome (behind_stmt_head at (tok r.1.now) r.0) (ahead tokens.new)) }
    ensures shorter { OnOk result (length (ahead tokens.new) < length (ahead tokens.old)) }
    ensures refused { IfErr result (λ stop. IfRefused stop (λ due. (from : State) (at : Within) → BeginsStmt (ahead tokens.old) from at → Refuses tokens.old from tokens.new due)) }
{
    let Some(token) = tokens.first() else {
        return Err(Stop::Refused(Due::Other));
    };
    let Some(head) = stmt_head_of(token) else {
        return Err(Stop::Refused(Due::Other));
    };
    tokens.advance();
    Ok((head, token))
}

/// A `val`, or a `var`, of its parts.
fn value_of(
    fixed: bool,
    place: Place,
    name: Name,
    ty: Option<TypeName>,
    value: Result<Expr, Stop>,
) -> Result<Stmt, Stop>
    ensures made { IfOk result (λ made. (read : TheExpr) × (value ≡ Ok read) × (stmt_tree made ≡ value_tree fixed place name (option_map type_tree ty) (expr_tree read))) }
    ensures refused { IfErr result (λ stop. IfRefused stop (λ due. value ≡ Err stop)) }
{
    let (name, ty, value) = all_three(Ok(name), Ok(ty), value)?;
    Ok(if fixed {
        Stmt::Val {
            place,
            name,
            ty,
            value,
        }
    } else {
        Stmt::Var {
            place,
            name,
            ty,
            value,
        }
    })
}

/// The type of a value, which may be left out, and the sign behind it.
fn value_type(alloc: Global, tokens: &mut Cursor<'_, '_>) -> Result<Option<TypeName>, Stop>
    ensures reads { IfOk result (λ ty. (fixed : Bool) (place : ThePlace) (written : TheName) (at : Within) →
        Moves tokens.old (value_type fixed place written at) tokens.new (want (alone_for (for_value fixed place written (option_map type_tree ty) at)))) }
    ensures shorter { OnOk result (length (ahead tokens.new) < length (ahead tokens.old)) }
    ensures refused { IfErr result (λ stop. IfRefused stop (λ due. (fixed : Bool) (place : ThePlace) (written : TheName) (at : Within) →
        Refuses tokens.old (value_type fixed place written at) tokens.new due)) }
{
    let ty = optional_type(alloc, tokens)?;
    kept(ty, tokens.expect(TokenKind::Equals))
}

/// The name and the type of a value, up to the sign behind them.
fn value_head(alloc: Global, tokens: &mut Cursor<'_, '_>) -> Result<(Name, Option<TypeName>), Stop>
    ensures reads { IfOk result (λ read. (fixed : Bool) (place : ThePlace) (at : Within) →
        Moves tokens.old (value_name fixed place at) tokens.new (want (alone_for (for_value fixed place read.0 (option_map type_tree read.1) at)))) }
    ensures shorter { OnOk result (length (ahead tokens.new) < length (ahead tokens.old)) }
    ensures refused { IfErr result (λ stop. IfRefused stop (λ due. (fixed : Bool) (place : ThePlace) (at : Within) → Refuses tokens.old (value_name fixed place at) tokens.new due)) }
{
    let name = name(alloc, tokens)?;
    beside(name, value_type(alloc, tokens))
}

/// A `val` or a `var`, from behind its word on.
fn value(
    alloc: Global,
    fixed: bool,
    place: Place,
    tokens: &mut Cursor<'_, '_>,
) -> Result<Stmt, Stop>
    ensures reads { IfOk result (λ stmt. (at : Within) → Moves tokens.old (value_name fixed place at) tokens.new (after_stmt (with_stmt at (stmt_tree stmt)))) }
    ensures shorter { OnOk result (length (ahead tokens.new) < length (ahead tokens.old)) }
    ensures refused { IfErr result (λ stop. IfRefused stop (λ due. (at : Within) → Refuses tokens.old (value_name fixed place at) tokens.new due)) }
{
    let (name, ty) = value_head(alloc, tokens)?;
    value_of(fixed, place, name, ty, expression(alloc, 0, tokens))
}

fn assignment_of(name: Name, value: Result<Expr, Stop>) -> Result<Stmt, Stop>
    ensures made { IfOk result (λ made. (read : TheExpr) × (value ≡ Ok read) × (stmt_tree made ≡ s.assignment name (expr_tree read))) }
    ensures refused { IfErr result (λ stop. IfRefused stop (λ due. value ≡ Err stop)) }
{
    let (name, value) = both(Ok(name), value)?;
    Ok(Stmt::Assign { name, value })
}

fn call_of(name: Name, arguments: Result<Items<Expr>, Stop>) -> Result<Stmt, Stop>
    ensures made { IfOk result (λ made. (read : List TheExpr) × (arguments ≡ Ok read) × (stmt_tree made ≡ s.call name (exprs_of (map expr_tree read)))) }
    ensures refused { IfErr result (λ stop. IfRefused stop (λ due. arguments ≡ Err stop)) }
{
    let (name, arguments) = both(Ok(name), arguments)?;
    Ok(Stmt::Call { name, arguments })
}

/// The arguments of a call that stands alone.
fn arguments(alloc: Global, tokens: &mut Cursor<'_, '_>) -> Result<Items<Expr>, Stop>
    ensures reads { IfOk result (λ arguments. (written : TheName) (at : Within) → begins kind.Equals (ahead tokens.old) ≡ false →
        Moves tokens.old (name_seen written at) tokens.new (after_stmt (with_stmt at (s.call written (exprs_of (map expr_tree arguments)))))) }
    ensures shorter { OnOk result (length (ahead tokens.new) < length (ahead tokens.old)) }
    ensures refused { IfErr result (λ stop. IfRefused stop (λ due. (written : TheName) (at : Within) → begins kind.Equals (ahead tokens.old) ≡ false →
        Refuses tokens.old (name_seen written at) tokens.new due)) }
{
    tokens.expect(TokenKind::LeftParen)?;
    exprs(alloc, false, tokens)
}

/// An assignment or a call, from behind its name on.
fn named(alloc: Global, name: Name, tokens: &mut Cursor<'_, '_>) -> Result<Stmt, Stop>
    ensures reads { IfOk result (λ stmt. (at : Within) → Moves tokens.old (name_seen name at) tokens.new (after_stmt (with_stmt at (stmt_tree stmt)))) }
    ensures shorter { OnOk result (length (ahead tokens.new) < length (ahead tokens.old)) }
    ensures refused { IfErr result (λ stop. IfRefused stop (λ due. (at : Within) → Refuses tokens.old (name_seen name at) tokens.new due)) }
{
    if tokens.take(TokenKind::Equals) {
        return assignment_of(name, expression(alloc, 0, tokens));
    }
    call_of(name, arguments(alloc, tokens))
}

/// The same, where this token is the name.
fn named_by(alloc: Global, token: &Lexeme<'_>, tokens: &mut Cursor<'_, '_>) -> Result<Stmt, Stop>
    ensures reads { IfOk result (λ stmt. (at : Within) → Moves tokens.old (name_seen (name_of (tok token.now)) at) tokens.new (after_stmt (with_stmt at (stmt_tree stmt)))) }
    ensures shorter { OnOk result (length (ahead tokens.new) < length (ahead tokens.old)) }
    ensures refused { IfErr result (λ stop. IfRefused stop (λ due. (at : Within) → Refuses tokens.old (name_seen (name_of (tok token.now)) at) tokens.new due)) }
{
    let name = name_of(alloc, token)?;
    named(alloc, name, tokens)
}

/// A test in round brackets.
fn test(alloc: Global, tokens: &mut Cursor<'_, '_>) -> Result<Expr, Stop>
    ensures reads { IfOk result (λ expr. (from : State) (at : Around) (to : ExprTree → State) → Expects kind.LeftParen (ahead tokens.old) from (want at) → ClosesExpr at to
        → Moves tokens.old from tokens.new (to (expr_tree expr))) }
    ensures shorter { OnOk result (length (ahead tokens.new) < length (ahead tokens.old)) }
    ensures refused { IfErr result (λ stop. IfRefused stop (λ due. (from : State) (at : Around) (to : ExprTree → State) → Expects kind.LeftParen (ahead tokens.old) from (want at) → ClosesExpr at to
        → Refuses tokens.old from tokens.new due)) }
{
    tokens.expect(TokenKind::LeftParen)?;
    closed_expression(alloc, tokens)
}

/// The test of a loop, and the brace that opens its body.
fn loop_head(alloc: Global, tokens: &mut Cursor<'_, '_>) -> Result<Expr, Stop>
    ensures reads { IfOk result (λ test. (place : ThePlace) (at : Within) → Moves tokens.old (loop_left place at) tokens.new (invariant_due place (expr_tree test) at)) }
    ensures shorter { OnOk result (length (ahead tokens.new) < length (ahead tokens.old)) }
    ensures refused { IfErr result (λ stop. IfRefused stop (λ due. (place : ThePlace) (at : Within) → Refuses tokens.old (loop_left place at) tokens.new due)) }
{
    let test = test(alloc, tokens)?;
    kept(test, tokens.expect(TokenKind::LeftBrace))
}

/// An `assert`, from behind its word on.
fn assertion(alloc: Global, place: Place, tokens: &mut Cursor<'_, '_>) -> Result<Stmt, Stop>
    ensures reads { IfOk result (λ stmt. (at : Within) → Moves tokens.old (assert_left place at) tokens.new (after_stmt (with_stmt at (stmt_tree stmt)))) }
    ensures shorter { OnOk result (length (ahead tokens.new) < length (ahead tokens.old)) }
    ensures refused { IfErr result (λ stop. IfRefused stop (λ due. (at : Within) → Refuses tokens.old (assert_left place at) tokens.new due)) }
{
    let claim = test(alloc, tokens)?;
    Ok(Stmt::Assert { place, claim })
}

/// A `Deduce`, from behind its word on.
fn deduction(alloc: Global, place: Place, tokens: &mut Cursor<'_, '_>) -> Result<Stmt, Stop>
    ensures reads { IfOk result (λ stmt. (at : Within) → Moves tokens.old (steps_left place at) tokens.new (after_stmt (with_stmt at (stmt_tree stmt)))) }
    ensures shorter { OnOk result (length (ahead tokens.new) < length (ahead tokens.old)) }
    ensures refused { IfErr result (λ stop. IfRefused stop (λ due. (at : Within) → Refuses tokens.old (steps_left place at) tokens.new due)) }
{
    let steps = steps(alloc, tokens)?;
    Ok(Stmt::Deduce { place, steps })
}

/// One statement as the statements of a block.
fn alone(alloc: Global, stmt: Result<Stmt, Stop>) -> Result<Items<Stmt>, Stop>
    ensures made { IfOk result (λ made. (read : TheStmt) × (stmt ≡ Ok read) × (made ≡ read ∷ [])) }
    ensures refused { IfErr result (λ stop. IfRefused stop (λ due. stmt ≡ Err stop)) }
{
    let mut list = Items::new(alloc);
    list.push(stmt?)?;
    Ok(list)
}

/// An if-statement of its parts.
fn branch_of(
    place: Place,
    test: Expr,
    arms: Result<(Items<Stmt>, Option<Items<Stmt>>), Stop>,
) -> Result<Stmt, Stop>
    ensures made { IfOk result (λ made. (read : List TheStmt × Option (List TheStmt)) × (arms ≡ Ok read)
        × (stmt_tree made ≡ s.branch place (expr_tree test) (stmts_of (map stmt_tree read.0)) (else_of (option_map (map stmt_tree) read.1)))) }
    ensures refused { IfErr result (λ stop. IfRefused stop (λ due. arms ≡ Err stop)) }
{
    let (test, arms) = both(Ok(test), arms)?;
    let (then, otherwise) = arms;
    Ok(Stmt::If {
        place,
        test,
        then,
        otherwise,
    })
}

/// A loop of its parts.
fn repetition_of(
    place: Place,
    test: Expr,
    rest: Result<((Items<Name>, Items<Expr>), Items<Stmt>), Stop>,
) -> Result<Stmt, Stop>
    ensures made { IfOk result (λ made. (read : (List TheName × List TheExpr) × List TheStmt) × (rest ≡ Ok read)
        × (stmt_tree made ≡ s.loop place (expr_tree test) read.0.0 (map expr_tree read.0.1) (stmts_of (map stmt_tree read.1)))) }
    ensures refused { IfErr result (λ stop. IfRefused stop (λ due. rest ≡ Err stop)) }
{
    let (test, rest) = both(Ok(test), rest)?;
    let (invariant, body) = rest;
    let (modifies, claims) = invariant;
    Ok(Stmt::While {
        place,
        test,
        modifies,
        claims,
        body,
    })
}

/// Behind the brace that opens a block: goes behind the one that closes it where that comes, and tells whether a
/// statement comes.
fn has_stmts(tokens: &mut Cursor<'_, '_>) -> bool
    ensures reads { (block : Block) (to : List StmtTree → State) → ClosesBlock block to
        → outcome (stmt_or_end (within [] block)) (ahead tokens.old) ≡ outcome (if result then stmt_or_end (within [] block) else to []) (ahead tokens.new) }
    ensures begun { IsTrue result → begins kind.RightBrace (ahead tokens.new) ≡ false }
    ensures no_longer { length (ahead tokens.new) ≤ length (ahead tokens.old) }
{
    !tokens.take(TokenKind::RightBrace)
}

/// A statement, which is due.
#[cycle(statements)]
pub fn stmt(alloc: Global, tokens: &mut Cursor<'_, '_>) -> Result<Stmt, Stop>
    ensures reads { IfOk result (λ stmt. (from : State) (at : Within) → BeginsStmt (ahead tokens.old) from at → Moves tokens.old from tokens.new (after_stmt (with_stmt at (stmt_tree stmt)))) }
    ensures shorter { OnOk result (length (ahead tokens.new) < length (ahead tokens.old)) }
    ensures refused { IfErr result (λ stop. IfRefused stop (λ due. (from : State) (at : Within) → BeginsStmt (ahead tokens.old) from at → Refuses tokens.old from tokens.new due)) }
{
    let (head, token) = begin_stmt(tokens)?;
    stmt_behind(alloc, head, token, tokens)
}

/// A statement, from behind the token that begins it.
#[cycle(statements)]
fn stmt_behind(
    alloc: Global,
    head: StmtHead,
    token: &Lexeme<'_>,
    tokens: &mut Cursor<'_, '_>,
) -> Result<Stmt, Stop>
    ensures reads { IfOk result (λ stmt. (at : Within) → Moves tokens.old (behind_stmt_head at (tok token.now) head) tokens.new (after_stmt (with_stmt at (stmt_tree stmt)))) }
    ensures shorter { OnOk result (length (ahead tokens.new) < length (ahead tokens.old)) }
    ensures refused { IfErr result (λ stop. IfRefused stop (λ due. (at : Within) → Refuses tokens.old (behind_stmt_head at (tok token.now) head) tokens.new due)) }
{
    match head {
        StmtHead::Value(fixed) => value(alloc, fixed, token.place, tokens),
        StmtHead::Name => named_by(alloc, token, tokens),
        StmtHead::If => if_stmt(alloc, token.place, tokens),
        StmtHead::While => repetition(alloc, token.place, tokens),
        StmtHead::Assert => assertion(alloc, token.place, tokens),
        StmtHead::Deduce => deduction(alloc, token.place, tokens),
    }
}

/// An if-statement, from behind its word on.
#[cycle(statements)]
fn if_stmt(alloc: Global, place: Place, tokens: &mut Cursor<'_, '_>) -> Result<Stmt, Stop>
    ensures reads { IfOk result (λ stmt. (target : Target) → Moves tokens.old (if_left place target) tokens.new (after_stmt (put target (stmt_tree stmt)))) }
    ensures shorter { OnOk result (length (ahead tokens.new) < length (ahead tokens.old)) }
    ensures refused { IfErr result (λ stop. IfRefused stop (λ due. (target : Target) → Refuses tokens.old (if_left place target) tokens.new due)) }
{
    let test = test(alloc, tokens)?;
    branch_of(place, test, arms(alloc, tokens))
}

/// The two parts of an if-statement behind its test, of which the second may be left out.
#[cycle(statements)]
fn arms(
    alloc: Global,
    tokens: &mut Cursor<'_, '_>,
) -> Result<(Items<Stmt>, Option<Items<Stmt>>), Stop>
    ensures reads { IfOk result (λ arms. (place : ThePlace) (test : ExprTree) (target : Target) → Moves tokens.old (then_due place test target)
        tokens.new (after_stmt (put target (s.branch place test (stmts_of (map stmt_tree arms.0)) (else_of (option_map (map stmt_tree) arms.1)))))) }
    ensures shorter { OnOk result (length (ahead tokens.new) < length (ahead tokens.old)) }
    ensures refused { IfErr result (λ stop. IfRefused stop (λ due. (place : ThePlace) (test : ExprTree) (target : Target) → Refuses tokens.old (then_due place test target) tokens.new due)) }
{
    let then = block(alloc, tokens)?;
    beside(then, otherwise(alloc, tokens))
}

/// What stands behind `else`, where there is one.
#[cycle(statements)]
fn otherwise(alloc: Global, tokens: &mut Cursor<'_, '_>) -> Result<Option<Items<Stmt>>, Stop>
    ensures reads { IfOk result (λ otherwise. (place : ThePlace) (test : ExprTree) (on_true : StmtTrees) (target : Target) → Moves tokens.old (else_or_end place test on_true target)
        tokens.new (after_stmt (put target (s.branch place test on_true (else_of (option_map (map stmt_tree) otherwise)))))) }
    ensures no_longer { OnOk result (length (ahead tokens.new) ≤ length (ahead tokens.old)) }
    ensures refused { IfErr result (λ stop. IfRefused stop (λ due. (place : ThePlace) (test : ExprTree) (on_true : StmtTrees) (target : Target) → Refuses tokens.old (else_or_end place test on_true target) tokens.new due)) }
{
    if !tokens.take(TokenKind::Else) {
        return Ok(None);
    }
    let trees = else_part(alloc, tokens)?;
    Ok(Some(trees))
}

/// The statements behind `else`. An `if` there is one of them.
#[cycle(statements)]
fn else_part(alloc: Global, tokens: &mut Cursor<'_, '_>) -> Result<Items<Stmt>, Stop>
    ensures reads { IfOk result (λ trees. (place : ThePlace) (test : ExprTree) (on_true : StmtTrees) (target : Target) → Moves tokens.old (else_due place test on_true target)
        tokens.new (after_stmt (put target (s.branch place test on_true (s.else_then (stmts_of (map stmt_tree trees))))))) }
    ensures shorter { OnOk result (length (ahead tokens.new) < length (ahead tokens.old)) }
    ensures refused { IfErr result (λ stop. IfRefused stop (λ due. (place : ThePlace) (test : ExprTree) (on_true : StmtTrees) (target : Target) → Refuses tokens.old (else_due place test on_true target) tokens.new due)) }
{
    if tokens.is_at(TokenKind::If) {
        return else_if(alloc, tokens);
    }
    block(alloc, tokens)
}

/// The statement behind `else`, where it is an `if`.
#[cycle(statements)]
fn else_if(alloc: Global, tokens: &mut Cursor<'_, '_>) -> Result<Items<Stmt>, Stop>
    requires { begins kind.If (ahead tokens.old) ≡ true }
    ensures reads { IfOk result (λ trees. (place : ThePlace) (test : ExprTree) (on_true : StmtTrees) (target : Target) → Moves tokens.old (else_due place test on_true target)
        tokens.new (after_stmt (put target (s.branch place test on_true (s.else_then (stmts_of (map stmt_tree trees))))))) }
    ensures shorter { OnOk result (length (ahead tokens.new) < length (ahead tokens.old)) }
    ensures refused { IfErr result (λ stop. IfRefused stop (λ due. (place : ThePlace) (test : ExprTree) (on_true : StmtTrees) (target : Target) → Refuses tokens.old (else_due place test on_true target) tokens.new due)) }
{
    let Some(token) = tokens.first() else {
        return Err(Stop::Refused(Due::Other));
    };
    tokens.advance();
    alone(alloc, if_stmt(alloc, token.place, tokens))
}

/// A loop, from behind its word on.
#[cycle(statements)]
fn repetition(alloc: Global, place: Place, tokens: &mut Cursor<'_, '_>) -> Result<Stmt, Stop>
    ensures reads { IfOk result (λ stmt. (at : Within) → Moves tokens.old (loop_left place at) tokens.new (after_stmt (with_stmt at (stmt_tree stmt)))) }
    ensures shorter { OnOk result (length (ahead tokens.new) < length (ahead tokens.old)) }
    ensures refused { IfErr result (λ stop. IfRefused stop (λ due. (at : Within) → Refuses tokens.old (loop_left place at) tokens.new due)) }
{
    let test = loop_head(alloc, tokens)?;
    repetition_of(place, test, loop_rest(alloc, tokens))
}

/// The invariant and the statements of a loop, up to the closing brace.
#[cycle(statements)]
fn loop_rest(
    alloc: Global,
    tokens: &mut Cursor<'_, '_>,
) -> Result<((Items<Name>, Items<Expr>), Items<Stmt>), Stop>
    ensures reads { IfOk result (λ rest. (place : ThePlace) (test : ExprTree) (at : Within) → Moves tokens.old (invariant_due place test at)
        tokens.new (after_loop place test rest.0.0 (map expr_tree rest.0.1) (map stmt_tree rest.1) at)) }
    ensures shorter { OnOk result (length (ahead tokens.new) < length (ahead tokens.old)) }
    ensures refused { IfErr result (λ stop. IfRefused stop (λ due. (place : ThePlace) (test : ExprTree) (at : Within) → Refuses tokens.old (invariant_due place test at) tokens.new due)) }
{
    let invariant = invariant(alloc, tokens)?;
    beside(invariant, loop_body(alloc, tokens))
}

/// The statements of a loop behind its invariant, up to the closing brace.
#[cycle(statements)]
fn loop_body(alloc: Global, tokens: &mut Cursor<'_, '_>) -> Result<Items<Stmt>, Stop>
    ensures reads { IfOk result (λ stmts. (place : ThePlace) (test : ExprTree) (names : List TheName) (claims : List ExprTree) (at : Within) →
        Moves tokens.old (invariant_end (head_of_loop place test names claims at)) tokens.new (after_loop place test names claims (map stmt_tree stmts) at)) }
    ensures shorter { OnOk result (length (ahead tokens.new) < length (ahead tokens.old)) }
    ensures refused { IfErr result (λ stop. IfRefused stop (λ due. (place : ThePlace) (test : ExprTree) (names : List TheName) (claims : List ExprTree) (at : Within) →
        Refuses tokens.old (invariant_end (head_of_loop place test names claims at)) tokens.new due)) }
{
    let more = tokens.goes_on(TokenKind::Newline, TokenKind::RightBrace)?;
    let mut list = Items::new(alloc);
    let end = add_stmts(alloc, more, &mut list, tokens);
    kept(list, end)
}

/// A block.
#[cycle(statements)]
fn block(alloc: Global, tokens: &mut Cursor<'_, '_>) -> Result<Items<Stmt>, Stop>
    ensures reads { IfOk result (λ stmts. (from : State) (block : Block) (to : List StmtTree → State) → Expects kind.LeftBrace (ahead tokens.old) from (stmt_or_end (within [] block)) → ClosesBlock block to
        → Moves tokens.old from tokens.new (to (map stmt_tree stmts))) }
    ensures shorter { OnOk result (length (ahead tokens.new) < length (ahead tokens.old)) }
    ensures refused { IfErr result (λ stop. IfRefused stop (λ due. (from : State) (block : Block) (to : List StmtTree → State) → Expects kind.LeftBrace (ahead tokens.old) from (stmt_or_end (within [] block)) → ClosesBlock block to
        → Refuses tokens.old from tokens.new due)) }
{
    tokens.expect(TokenKind::LeftBrace)?;
    let more = has_stmts(tokens);
    let mut list = Items::new(alloc);
    let end = add_stmts(alloc, more, &mut list, tokens);
    kept(list, end)
}

/// Adds the statements of a block, where another comes, up to its closing brace.
#[cycle(statements)]
fn add_stmts(
    alloc: Global,
    another: bool,
    list: &mut Items<Stmt>,
    tokens: &mut Cursor<'_, '_>,
) -> Result<(), Stop>
    requires { IsTrue another → begins kind.RightBrace (ahead tokens.old) ≡ false }
    ensures reads { OnOk result ((block : Block) (to : List StmtTree → State) → ClosesBlock block to
        → Moves tokens.old (if another then stmt_or_end (within (map stmt_tree list.old) block) else to (map stmt_tree list.old)) tokens.new (to (map stmt_tree list.new))) }
    ensures no_longer { OnOk result (length (ahead tokens.new) ≤ length (ahead tokens.old)) }
    ensures refused { IfErr result (λ stop. IfRefused stop (λ due. (block : Block) (to : List StmtTree → State) → ClosesBlock block to
        → Refuses tokens.old (if another then stmt_or_end (within (map stmt_tree list.old) block) else to (map stmt_tree list.old)) tokens.new due)) }
{
    let mut more = another;
    'members: while more {
        let member = stmt(alloc, tokens)?;
        list.push(member)?;
        more = tokens.goes_on(TokenKind::Newline, TokenKind::RightBrace)?;
    }
    Ok(())
}

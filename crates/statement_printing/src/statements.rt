ghost use Rattle.std.specs.Prelude.{◌≡◌, OnOk, ◌∷◌};
ghost use Rattle.slang_tree.specs.StmtTree.{stmt_tree};
ghost use Rattle.print_statements.specs.Accounts.{stmt_account};
ghost use Rattle.print_layout.specs.Statements.{stmt_pieces};
ghost use Rattle.token_printing.specs.Gaps.{gap_seen};
ghost use Rattle.expression_printing.specs.Printed.{Adds};
ghost use Rattle.statement_printing.specs.Printed.{is_branch, only_branch, stmt_lines, braced_pieces, otherwise_pieces, else_of_pieces, loop_of};

use crate::NoMemory;
use crate::parts::{add_declared, add_deduction, add_enclosed, add_invariant};
use expression_printing::{add_arguments, add_expr};
use slang_tree::{Expr, Name, Stmt};
use sqlite_items::Items;
use step_printing::deeper;
use token_printing::{Gap, add_name, add_word};

/// Whether a statement is an `if`.
#[tactic(auto, using(slang_tree::proofs::Lines::stmt_lines))]
fn is_branch(stmt: &Stmt) -> bool
    ensures { result ≡ is_branch (stmt_tree stmt.now) }
{
    match stmt {
        Stmt::If { .. } => true,
        Stmt::Val { .. } => false,
        Stmt::Var { .. } => false,
        Stmt::Assign { .. } => false,
        Stmt::Call { .. } => false,
        Stmt::While { .. } => false,
        Stmt::Assert { .. } => false,
        Stmt::Deduce { .. } => false,
    }
}

/// Whether a statement with these behind it is an `if` with nothing behind it.
fn is_lone_branch(stmt: &Stmt, others: &[Stmt]) -> bool
    ensures { result ≡ only_branch (stmt.now ∷ others.now) }
{
    if others.is_empty() {
        is_branch(stmt)
    } else {
        false
    }
}

/// Adds a statement behind a gap, inside so many levels.
#[cycle(printing)]
#[tactic(auto, using(crate::proofs::Sizes::smaller_lines))]
pub fn add_stmt(
    stmt: &Stmt,
    depth: u32,
    gap: Gap,
    light: bool,
    text: &mut Vec<u8>,
) -> Result<(), NoMemory>
    ensures { OnOk result (Adds text.old.items text.new.items (stmt_pieces depth (gap_seen gap) (stmt_account light (stmt_tree stmt.now)))) }
{
    match stmt {
        Stmt::Val {
            name,
            ty,
            value,
            ..
        } => {
            add_declared(true, name, ty, gap, text)?;
            add_expr(value, Gap::Blank, light, text)
        }
        Stmt::Var {
            name,
            ty,
            value,
            ..
        } => {
            add_declared(false, name, ty, gap, text)?;
            add_expr(value, Gap::Blank, light, text)
        }
        Stmt::Assign { name, value } => {
            add_name(gap, name, text)?;
            add_word(Gap::Blank, "=", text)?;
            add_expr(value, Gap::Blank, light, text)
        }
        Stmt::Call { name, arguments } => {
            add_name(gap, name, text)?;
            add_arguments(arguments.as_slice(), light, text)
        }
        Stmt::If {
            test,
            then,
            otherwise,
            ..
        } => {
            add_word(gap, "if", text)?;
            add_enclosed(test, Gap::Blank, light, text)?;
            add_braced(then.as_slice(), depth, light, text)?;
            add_otherwise(otherwise, depth, light, text)
        }
        Stmt::While {
            test,
            modifies,
            claims,
            body,
            ..
        } => {
            add_word(gap, "while", text)?;
            add_enclosed(test, Gap::Blank, light, text)?;
            add_loop(
                modifies.as_slice(),
                claims.as_slice(),
                body.as_slice(),
                depth,
                light,
                text,
            )
        }
        Stmt::Assert { claim, .. } => {
            add_word(gap, "assert", text)?;
            add_enclosed(claim, Gap::None, light, text)
        }
        Stmt::Deduce { steps, .. } => add_deduction(steps.as_slice(), depth, gap, light, text),
    }
}

/// Adds the braces of a loop and what stands in them.
#[cycle(printing)]
fn add_loop(
    modifies: &[Name],
    claims: &[Expr],
    body: &[Stmt],
    depth: u32,
    light: bool,
    text: &mut Vec<u8>,
) -> Result<(), NoMemory>
    ensures { OnOk result (Adds text.old.items text.new.items (loop_of light depth modifies.now claims.now body.now)) }
{
    let inner = deeper(depth)?;
    add_word(Gap::Blank, "{", text)?;
    add_invariant(modifies, claims, inner, light, text)?;
    add_stmts(body, inner, light, text)?;
    add_word(Gap::Line(depth), "}", text)
}

/// Adds what stands behind `else`, where there is something.
#[cycle(printing)]
fn add_otherwise(
    otherwise: &Option<Items<Stmt>>,
    depth: u32,
    light: bool,
    text: &mut Vec<u8>,
) -> Result<(), NoMemory>
    ensures { OnOk result (Adds text.old.items text.new.items (otherwise_pieces light depth otherwise.now)) }
{
    match otherwise {
        None => Ok(()),
        Some(stmts) => add_else(stmts.as_slice(), depth, light, text),
    }
}

/// Adds `else` and the statements behind it. An `if` that is all of them stands there without braces.
#[cycle(printing)]
fn add_else(stmts: &[Stmt], depth: u32, light: bool, text: &mut Vec<u8>) -> Result<(), NoMemory>
    ensures { OnOk result (Adds text.old.items text.new.items (else_of_pieces light depth stmts.now)) }
{
    add_word(Gap::Blank, "else", text)?;
    match stmts.split_first() {
        None => add_braced(stmts, depth, light, text),
        Some((stmt, others)) => {
            if is_lone_branch(stmt, others) {
                add_stmt(stmt, depth, Gap::Blank, light, text)
            } else {
                add_braced(stmts, depth, light, text)
            }
        }
    }
}

/// Adds statements in braces.
#[cycle(printing)]
fn add_braced(stmts: &[Stmt], depth: u32, light: bool, text: &mut Vec<u8>) -> Result<(), NoMemory>
    ensures { OnOk result (Adds text.old.items text.new.items (braced_pieces light depth stmts.now)) }
{
    let inner = deeper(depth)?;
    add_word(Gap::Blank, "{", text)?;
    add_stmts(stmts, inner, light, text)?;
    add_word(Gap::Line(depth), "}", text)
}

/// Adds statements, each on lines of its own.
#[cycle(printing)]
#[tactic(auto, using(crate::proofs::Sizes::size_lines))]
fn add_stmts(stmts: &[Stmt], depth: u32, light: bool, text: &mut Vec<u8>) -> Result<(), NoMemory>
    ensures { OnOk result (Adds text.old.items text.new.items (stmt_lines light depth stmts.now)) }
{
    for stmt in stmts {
        add_stmt(stmt, depth, Gap::Line(depth), light, text)?;
    }
    Ok(())
}

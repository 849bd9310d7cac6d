ghost use Rattle.std.specs.Prelude.{◌≡◌, ◌+◌, IfOk, map};
ghost use Rattle.std.specs.Option.{option_map};
ghost use Rattle.slang_tree.specs.StmtTree.{else_of, stmt_tree, stmts_of};
ghost use Rattle.type_rules.specs.Statements as rule;

use crate::NoMemory;
use slang_tree::Stmt;
use sqlite_items::Items;
use std::alloc::AllocError;

/// A sum, if it fits.
fn sum(first: u32, second: u32) -> Result<u32, NoMemory>
    ensures { IfOk result (λ n. n ≡ first + second) }
{
    match u32::try_from(first as u64 + second as u64) {
        Ok(number) => Ok(number),
        Err(_) => Err(AllocError),
    }
}

/// How many locals a statement declares, in all its blocks.
#[cycle(counts)]
#[tactic(auto, using(slang_tree::proofs::Lines::stmt_lines, statement_judging::proofs::Sizes::smaller_lines))]
fn local_count(stmt: &Stmt) -> Result<u32, NoMemory>
    ensures { IfOk result (λ n. n ≡ rule.local_count (stmt_tree stmt.now)) }
{
    match stmt {
        Stmt::Val { .. } => Ok(1),
        Stmt::Var { .. } => Ok(1),
        Stmt::Assign { .. } => Ok(0),
        Stmt::Call { .. } => Ok(0),
        Stmt::If {
            then,
            otherwise,
            ..
        } => branch_count(then.as_slice(), otherwise),
        Stmt::While { body, .. } => local_counts(body.as_slice()),
        Stmt::Assert { .. } => Ok(0),
        Stmt::Deduce { .. } => Ok(0),
    }
}

/// How many locals the two blocks of an `if` declare.
#[cycle(counts)]
fn branch_count(then: &[Stmt], otherwise: &Option<Items<Stmt>>) -> Result<u32, NoMemory>
    ensures { IfOk result (λ n. n ≡ rule.local_counts (stmts_of (map stmt_tree then.now)) + rule.else_count (else_of (option_map (map stmt_tree) otherwise.now))) }
{
    let first = local_counts(then)?;
    match otherwise {
        None => Ok(first),
        Some(stmts) => sum(first, local_counts(stmts.as_slice())?),
    }
}

/// How many locals statements declare, in all their blocks.
#[cycle(counts)]
#[tactic(auto, using(statement_judging::proofs::Sizes::size_lines))]
pub fn local_counts(stmts: &[Stmt]) -> Result<u32, NoMemory>
    ensures { IfOk result (λ n. n ≡ rule.local_counts (stmts_of (map stmt_tree stmts.now))) }
{
    let mut count: u32 = 0;
    for stmt in stmts {
        count = sum(count, local_count(stmt)?)?;
    }
    Ok(count)
}

ghost use Rattle.std.specs.Prelude.{OnOk, map};
ghost use Rattle.std.specs.Option.{option_map};
ghost use Rattle.slang_tree.specs.declared.place.Place.{Place};
ghost use Rattle.slang_tree.specs.ExprTree.{expr_tree};
ghost use Rattle.slang_tree.specs.StmtTree.{branch, else_of, loop, stmt_tree, stmts_of};
ghost use Rattle.type_rules.specs.Meanings.{Scope};
ghost use Rattle.name_scopes.specs.Fits.{Fits};
ghost use Rattle.statement_judging.specs.Keeps.{Keeps, Restores};
ghost use Rattle.statement_judging.specs.Judged.{AreStatements, IsBlock, IsElse, IsStatement};

use crate::NoMemory;
use crate::declaring::declare;
use crate::leaving::leave_loop;
use claim_judging::{claim, claims};
use expression_forms::Context;
use name_scopes::NameScope;
use proof_judging::proof;
use slang_tree::{Expr, Name, Stmt};
use sqlite_items::Items;
use std::alloc::Global;
use target_judging::{MayBeNamed, assignment, call, modifies};
use type_faults::FirstFault;

/// Tells what is wrong with a statement. What it declares comes into scope.
#[cycle(statements)]
#[tactic(auto, using(slang_tree::proofs::Lines::stmt_lines, crate::proofs::Sizes::smaller_lines))]
fn judged_stmt(
    stmt: &Stmt,
    alloc: Global,
    scope: &mut NameScope,
    told: &mut FirstFault,
) -> Result<(), NoMemory>
    ensures judged { OnOk result ((at : Scope) → Fits scope.old at → IsStatement scope.new told.old.found told.new.found at (stmt_tree stmt.now)) }
    ensures kept { OnOk result (Keeps scope.old scope.new) }
{
    match stmt {
        Stmt::Val {
            name,
            ty,
            value,
            ..
        } => declare(value, alloc, scope, told, name, false, ty),
        Stmt::Var {
            name,
            ty,
            value,
            ..
        } => declare(value, alloc, scope, told, name, true, ty),
        Stmt::Assign { name, value } => assignment(value, alloc, scope, told, name),
        Stmt::Call { name, arguments } => call(arguments.as_slice(), alloc, scope, told, name),
        Stmt::If {
            test,
            then,
            otherwise,
            ..
        } => judged_branch(then.as_slice(), alloc, scope, told, otherwise, test),
        Stmt::While {
            test,
            modifies,
            claims,
            body,
            ..
        } => judged_loop(
            body.as_slice(),
            alloc,
            scope,
            told,
            test,
            modifies.as_slice(),
            claims.as_slice(),
        ),
        Stmt::Assert { claim: shown, .. } => claim(shown, alloc, scope, told, Context::Claim),
        Stmt::Deduce { steps, .. } => proof(steps.as_slice(), alloc, scope, told),
    }
}

/// Tells what is wrong with an `if`.
#[cycle(statements)]
fn judged_branch(
    then: &[Stmt],
    alloc: Global,
    scope: &mut NameScope,
    told: &mut FirstFault,
    otherwise: &Option<Items<Stmt>>,
    test: &Expr,
) -> Result<(), NoMemory>
    ensures judged { OnOk result ((at : Scope) → Fits scope.old at → (place : Place) → IsStatement scope.new told.old.found told.new.found at
        (branch place (expr_tree test.now) (stmts_of (map stmt_tree then.now)) (else_of (option_map (map stmt_tree) otherwise.now)))) }
    ensures restored { OnOk result (Restores scope.old scope.new) }
{
    claim(test, alloc, scope, told, Context::Program)?;
    judged_block(then, alloc, scope, told)?;
    judged_else(otherwise, alloc, scope, told)
}

/// Tells what is wrong with a loop.
#[cycle(statements)]
fn judged_loop(
    body: &[Stmt],
    alloc: Global,
    scope: &mut NameScope,
    told: &mut FirstFault,
    test: &Expr,
    changed: &[Name],
    invariants: &[Expr],
) -> Result<(), NoMemory>
    ensures judged { OnOk result ((at : Scope) → Fits scope.old at → (place : Place) → IsStatement scope.new told.old.found told.new.found at
        (loop place (expr_tree test.now) changed.now (map expr_tree invariants.now) (stmts_of (map stmt_tree body.now)))) }
    ensures restored { OnOk result (Restores scope.old scope.new) }
{
    claim(test, alloc, scope, told, Context::Program)?;
    modifies(changed, alloc, scope, told, MayBeNamed::Vars)?;
    claims(invariants, alloc, scope, told, Context::Claim)?;
    let names = scope.names.len();
    scope.enter_loop(alloc, changed)?;
    judged_stmts(body, alloc, scope, told)?;
    leave_loop(scope, names);
    Ok(())
}

/// Tells what is wrong with the part behind `else`, if there is one.
#[cycle(statements)]
fn judged_else(
    otherwise: &Option<Items<Stmt>>,
    alloc: Global,
    scope: &mut NameScope,
    told: &mut FirstFault,
) -> Result<(), NoMemory>
    ensures judged { OnOk result ((at : Scope) → Fits scope.old at
        → IsElse scope.new told.old.found told.new.found at (else_of (option_map (map stmt_tree) otherwise.now))) }
    ensures restored { OnOk result (Restores scope.old scope.new) }
{
    match otherwise {
        None => Ok(()),
        Some(stmts) => judged_block(stmts.as_slice(), alloc, scope, told),
    }
}

/// Tells what is wrong with the statements of a block, the locals of which go out of scope behind it.
#[cycle(statements)]
fn judged_block(
    stmts: &[Stmt],
    alloc: Global,
    scope: &mut NameScope,
    told: &mut FirstFault,
) -> Result<(), NoMemory>
    ensures judged { OnOk result ((at : Scope) → Fits scope.old at
        → IsBlock scope.new told.old.found told.new.found at (stmts_of (map stmt_tree stmts.now))) }
    ensures restored { OnOk result (Restores scope.old scope.new) }
{
    let names = scope.names.len();
    let covered = scope.covered.len();
    judged_stmts(stmts, alloc, scope, told)?;
    scope.leave(names, covered);
    Ok(())
}

/// Tells what is wrong with statements. What they declare comes into scope.
#[cycle(statements)]
#[tactic(auto, using(crate::proofs::Sizes::size_lines))]
pub fn judged_stmts(
    stmts: &[Stmt],
    alloc: Global,
    scope: &mut NameScope,
    told: &mut FirstFault,
) -> Result<(), NoMemory>
    ensures judged { OnOk result ((at : Scope) → Fits scope.old at
        → AreStatements scope.new told.old.found told.new.found at (stmts_of (map stmt_tree stmts.now))) }
    ensures kept { OnOk result (Keeps scope.old scope.new) }
{
    for stmt in stmts {
        judged_stmt(stmt, alloc, scope, told)?;
    }
    Ok(())
}

ghost use Rattle.std.specs.Prelude.{IfOk, OnOk, map};
ghost use Rattle.std.specs.Option.{option_map};
ghost use Rattle.slang_tree.specs.ExprTree.{expr_tree};
ghost use Rattle.slang_tree.specs.StmtTree.{branch, else_of, loop, stmt_tree, stmts_of};
ghost use Rattle.type_rules.specs.Meanings.{Scope};
ghost use Rattle.type_rules.specs.Statements.{texts};
ghost use Rattle.lk_programs.specs.Program.{code_tree, code_trees};
ghost use Rattle.name_scopes.specs.Fits.{Fits};
ghost use Rattle.statement_judging.specs.Keeps.{Keeps, Restores};
ghost use Rattle.typed_names.specs.Fields.{HasFields};
ghost use Rattle.target_making.specs.Made.{IsCode};
ghost use Rattle.code_making.specs.Made.{AreCode, IsBlock, IsBody, IsElse};

use crate::NoMemory;
use crate::leaving::leave_loop;
use crate::parts::{all_four, asserted, deduced};
use call_making::called;
use expression_forms::Context;
use lk_claims::Ty;
use lk_programs::{Code, RecordTy};
use name_scopes::NameScope;
use noted_claims::all_noted;
use owned_results::all_three;
use slang_tree::{Expr, Name, Place, Stmt};
use sqlite_items::Items;
use std::alloc::Global;
use target_making::{assignment, declared, variables_meant};
use typed_names::{Nodes, Numbering};
use value_making::value_of;

/// The code of a statement. What it declares comes into scope.
#[cycle(code)]
#[tactic(auto, using(slang_tree::proofs::Lines::stmt_lines, statement_judging::proofs::Sizes::smaller_lines))]
fn made_stmt(
    stmt: &Stmt,
    alloc: Global,
    scope: &mut NameScope,
    nodes: &mut Nodes,
    locals: &mut Items<Ty>,
    records: &[RecordTy],
    numbers: Numbering,
) -> Result<Code, NoMemory>
    ensures made { IfOk result (λ code. (at : Scope) → Fits scope.old at → HasFields records.now at
        → IsCode numbers scope.new nodes.old nodes.new locals.old locals.new (code_tree code) at (stmt_tree stmt.now)) }
    ensures kept { OnOk result (Keeps scope.old scope.new) }
{
    match stmt {
        Stmt::Val {
            place,
            name,
            ty,
            value,
        } => declared(
            value, alloc, scope, nodes, locals, records, numbers, *place, name, false, ty,
        ),
        Stmt::Var {
            place,
            name,
            ty,
            value,
        } => declared(
            value, alloc, scope, nodes, locals, records, numbers, *place, name, true, ty,
        ),
        Stmt::Assign { name, value } => {
            assignment(value, alloc, scope, nodes, records, numbers, name)
        }
        Stmt::Call { name, arguments } => called(
            arguments.as_slice(),
            alloc,
            scope,
            nodes,
            records,
            numbers,
            name.place,
            None,
            name,
        ),
        Stmt::If {
            place,
            test,
            then,
            otherwise,
        } => made_branch(
            then.as_slice(),
            alloc,
            scope,
            nodes,
            locals,
            records,
            numbers,
            otherwise,
            *place,
            test,
        ),
        Stmt::While {
            place,
            test,
            modifies,
            claims,
            body,
        } => made_loop(
            body.as_slice(),
            alloc,
            scope,
            nodes,
            locals,
            records,
            numbers,
            *place,
            test,
            modifies.as_slice(),
            claims.as_slice(),
        ),
        Stmt::Assert { claim, .. } => asserted(claim, alloc, scope, nodes, records, numbers),
        Stmt::Deduce { place, steps } => deduced(
            steps.as_slice(),
            alloc,
            scope,
            nodes,
            records,
            numbers,
            *place,
        ),
    }
}

/// The code of an `if`.
#[cycle(code)]
#[tactic(auto, using(lk_programs::proofs::Codes::code_lines))]
fn made_branch(
    then: &[Stmt],
    alloc: Global,
    scope: &mut NameScope,
    nodes: &mut Nodes,
    locals: &mut Items<Ty>,
    records: &[RecordTy],
    numbers: Numbering,
    otherwise: &Option<Items<Stmt>>,
    place: Place,
    test: &Expr,
) -> Result<Code, NoMemory>
    ensures made { IfOk result (λ code. (at : Scope) → Fits scope.old at → HasFields records.now at
        → IsCode numbers scope.new nodes.old nodes.new locals.old locals.new (code_tree code) at
        (branch place (expr_tree test.now) (stmts_of (map stmt_tree then.now)) (else_of (option_map (map stmt_tree) otherwise.now)))) }
    ensures restored { OnOk result (Restores scope.old scope.new) }
{
    let node = nodes.add(place)?;
    let (test, then, otherwise) = all_three(
        value_of(test, alloc, scope, nodes, records, numbers),
        made_block(then, alloc, scope, nodes, locals, records, numbers),
        made_else(otherwise, alloc, scope, nodes, locals, records, numbers),
    )?;
    Ok(Code::If {
        node,
        test,
        then,
        otherwise,
    })
}

/// The code of a loop.
#[cycle(code)]
#[tactic(auto, using(lk_programs::proofs::Codes::code_lines))]
fn made_loop(
    body: &[Stmt],
    alloc: Global,
    scope: &mut NameScope,
    nodes: &mut Nodes,
    locals: &mut Items<Ty>,
    records: &[RecordTy],
    numbers: Numbering,
    place: Place,
    test: &Expr,
    changed: &[Name],
    claims: &[Expr],
) -> Result<Code, NoMemory>
    ensures made { IfOk result (λ code. (at : Scope) → Fits scope.old at → HasFields records.now at
        → IsCode numbers scope.new nodes.old nodes.new locals.old locals.new (code_tree code) at
        (loop place (expr_tree test.now) changed.now (map expr_tree claims.now) (stmts_of (map stmt_tree body.now)))) }
    ensures restored { OnOk result (Restores scope.old scope.new) }
{
    let node = nodes.add(place)?;
    let (modifies, test, invariants, body) = all_four(
        variables_meant(alloc, scope, numbers, changed),
        value_of(test, alloc, scope, nodes, records, numbers),
        all_noted(
            claims,
            alloc,
            scope,
            nodes,
            records,
            numbers,
            Context::Claim,
        ),
        made_body(body, alloc, scope, nodes, locals, records, numbers, changed),
    )?;
    Ok(Code::While {
        node,
        test,
        modifies,
        invariants,
        body,
    })
}

/// The code of the body of a loop, which changes only these of the variables that stand outside.
#[cycle(code)]
fn made_body(
    body: &[Stmt],
    alloc: Global,
    scope: &mut NameScope,
    nodes: &mut Nodes,
    locals: &mut Items<Ty>,
    records: &[RecordTy],
    numbers: Numbering,
    changed: &[Name],
) -> Result<Items<Code>, NoMemory>
    ensures made { IfOk result (λ code. (at : Scope) → Fits scope.old at → HasFields records.now at
        → IsBody numbers scope.new nodes.old nodes.new locals.old locals.new (code_trees code) at (texts changed.now) (stmts_of (map stmt_tree body.now))) }
    ensures restored { OnOk result (Restores scope.old scope.new) }
{
    let names = scope.names.len();
    scope.enter_loop(alloc, changed)?;
    let code = made_code(body, alloc, scope, nodes, locals, records, numbers)?;
    leave_loop(scope, names);
    Ok(code)
}

/// The code of the part behind `else`, if there is one.
#[cycle(code)]
fn made_else(
    otherwise: &Option<Items<Stmt>>,
    alloc: Global,
    scope: &mut NameScope,
    nodes: &mut Nodes,
    locals: &mut Items<Ty>,
    records: &[RecordTy],
    numbers: Numbering,
) -> Result<Items<Code>, NoMemory>
    ensures made { IfOk result (λ code. (at : Scope) → Fits scope.old at → HasFields records.now at
        → IsElse numbers scope.new nodes.old nodes.new locals.old locals.new (code_trees code) at (else_of (option_map (map stmt_tree) otherwise.now))) }
    ensures restored { OnOk result (Restores scope.old scope.new) }
{
    match otherwise {
        None => Ok(Items::new(alloc)),
        Some(stmts) => made_block(
            stmts.as_slice(),
            alloc,
            scope,
            nodes,
            locals,
            records,
            numbers,
        ),
    }
}

/// The code of a block, the locals of which go out of scope behind it.
#[cycle(code)]
fn made_block(
    stmts: &[Stmt],
    alloc: Global,
    scope: &mut NameScope,
    nodes: &mut Nodes,
    locals: &mut Items<Ty>,
    records: &[RecordTy],
    numbers: Numbering,
) -> Result<Items<Code>, NoMemory>
    ensures made { IfOk result (λ code. (at : Scope) → Fits scope.old at → HasFields records.now at
        → IsBlock numbers scope.new nodes.old nodes.new locals.old locals.new (code_trees code) at (stmts_of (map stmt_tree stmts.now))) }
    ensures restored { OnOk result (Restores scope.old scope.new) }
{
    let names = scope.names.len();
    let covered = scope.covered.len();
    let code = made_code(stmts, alloc, scope, nodes, locals, records, numbers)?;
    scope.leave(names, covered);
    Ok(code)
}

/// The code of statements. What they declare comes into scope.
#[cycle(code)]
#[tactic(auto, using(statement_judging::proofs::Sizes::size_lines))]
pub fn made_code(
    stmts: &[Stmt],
    alloc: Global,
    scope: &mut NameScope,
    nodes: &mut Nodes,
    locals: &mut Items<Ty>,
    records: &[RecordTy],
    numbers: Numbering,
) -> Result<Items<Code>, NoMemory>
    ensures made { IfOk result (λ code. (at : Scope) → Fits scope.old at → HasFields records.now at
        → AreCode numbers scope.new nodes.old nodes.new locals.old locals.new (code_trees code) at (stmts_of (map stmt_tree stmts.now))) }
    ensures kept { OnOk result (Keeps scope.old scope.new) }
{
    let mut made = Items::new(alloc);
    for stmt in stmts {
        let code = made_stmt(stmt, alloc, scope, nodes, locals, records, numbers)?;
        made.push(code)?;
    }
    Ok(made)
}

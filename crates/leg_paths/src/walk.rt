ghost use Rattle.std.specs.Prelude.{◌≡◌, ◌<◌, [], ◌∷◌, ◌++◌, List, length, map, IfOk, OnOk};
ghost use Rattle.std.specs.Option.{option_map};
ghost use Rattle.lk_programs.specs.Expr.{typed_expr};
ghost use Rattle.program_trees.specs.Programs.{renamed_expr};
ghost use Rattle.leg_rules.specs.Legs.{Items as LegItems, call_items, checked, in_front, legs_of, legs_of_code, on_false_items, on_true_items, own_claims};
ghost use Rattle.leg_count.specs.Capped.{capped};
ghost use Rattle.leg_items.specs.Drafts.{items_of};
ghost use Rattle.leg_items.specs.Names.{kind_of};
ghost use Rattle.call_items.specs.Frames.{claims_in};
ghost use Rattle.leg_orders.specs.Places.{program_of};
ghost use Rattle.leg_paths.specs.Walks.{GoesAlong, code_in, codes_in};

use crate::NoMemory;
use crate::statements::{add_asserted, add_loop_start, add_own_checked, add_returned};
use call_items::{Call, add_call};
use leg_count::leg_count_behind;
use leg_items::{DraftItem, Scope, add_demanded, add_false, add_proof, add_set, add_true};
use lk_programs::{Code, Expr, Kind, NodeNo, Noted, Typed};
use sqlite_items::Items;
use std::alloc::{AllocError, Global};

/// Adds the items of a call. The program is well typed, so the method that is called is there.
fn add_called(
    alloc: Global,
    typed: &Typed,
    scope: Scope,
    node: NodeNo,
    target: Option<u32>,
    name: NodeNo,
    method: u32,
    arguments: &[Expr],
    out: &mut Items<DraftItem>,
) -> Result<(), NoMemory>
    ensures { OnOk result (items_of out.new ≡ items_of out.old ++ call_items (program_of typed.now) node.0 (option_map (kind_of scope) target) name.0 method
        (map (λ expr. renamed_expr (kind_of scope) (typed_expr expr)) arguments.now)) }
{
    match typed.methods.get(method as usize) {
        Some(callee) => {
            let call = Call {
                node,
                method,
                caller: scope,
                callee: Scope {
                    locals: callee.locals.len(),
                    globals: typed.globals.len(),
                },
            };
            add_call(alloc, call, callee, target, name, arguments, out)
        }
        None => Err(AllocError),
    }
}

/// Adds the items of one leg of the statements, behind which that many legs follow. Ok(None) where it has ended, and else the number
/// of the leg with which it goes on.
#[cycle(walk)]
#[tactic(auto, using(leg_count::proofs::Sizes::size_lines))]
pub fn add_statements(
    codes: &[Code],
    alloc: Global,
    typed: &Typed,
    scope: Scope,
    number: u64,
    following: u64,
    out: &mut Items<DraftItem>,
) -> Result<Option<u64>, NoMemory>
    ensures { IfOk result (λ next. (tail : List LegItems) → following ≡ capped (length tail) →
        GoesAlong (legs_of_code (program_of typed.now) (codes_in scope codes.now) tail) tail number (items_of out.old) (items_of out.new) next) }
{
    let mut number = number;
    let mut at = 0;
    'codes: while at < codes.len() {
        let code = &codes[at];
        let rest = &codes[at + 1..];
        match add_statement(code, alloc, typed, scope, rest, number, following, out)? {
            None => return Ok(None),
            Some(next) => number = next,
        }
        at += 1;
    }
    Ok(Some(number))
}

/// Adds the items of one leg of the statement, behind which the others follow, and then that many legs.
#[cycle(walk)]
#[tactic(auto, using(leg_count::proofs::Sizes::size_lines))]
fn add_statement(
    code: &Code,
    alloc: Global,
    typed: &Typed,
    scope: Scope,
    rest: &[Code],
    number: u64,
    following: u64,
    out: &mut Items<DraftItem>,
) -> Result<Option<u64>, NoMemory>
    ensures { IfOk result (λ next. (tail : List LegItems) → following ≡ capped (length tail) →
        GoesAlong (legs_of (program_of typed.now) (code_in scope code.now) (legs_of_code (program_of typed.now) (codes_in scope rest.now) tail))
        (legs_of_code (program_of typed.now) (codes_in scope rest.now) tail) number (items_of out.old) (items_of out.new) next) }
{
    match code {
        Code::Val {
            node,
            variable,
            value,
        } => {
            add_set(alloc, scope, *node, *variable, value, out)?;
            Ok(Some(number))
        }
        Code::Assign {
            node,
            variable,
            value,
        } => {
            add_set(alloc, scope, *node, *variable, value, out)?;
            Ok(Some(number))
        }
        Code::Return { node, value } => {
            add_returned(alloc, scope, *node, value, out)?;
            Ok(Some(number))
        }
        Code::Assert(noted) => {
            add_asserted(alloc, scope, noted, out)?;
            Ok(Some(number))
        }
        Code::Deduce { node, steps } => {
            add_proof(alloc, scope, *node, steps.as_slice(), out)?;
            Ok(Some(number))
        }
        Code::Call {
            node,
            target,
            name,
            method,
            arguments,
        } => {
            add_called(
                alloc,
                typed,
                scope,
                *node,
                *target,
                *name,
                *method,
                arguments.as_slice(),
                out,
            )?;
            Ok(Some(number))
        }
        Code::If {
            node,
            test,
            then,
            otherwise,
        } => {
            add_demanded(alloc, scope, test, out)?;
            let behind = leg_count_behind(rest, following);
            add_branch(
                then.as_slice(),
                otherwise.as_slice(),
                alloc,
                typed,
                scope,
                *node,
                test,
                number,
                behind,
                out,
            )
        }
        Code::While {
            node,
            test,
            modifies,
            invariants,
            body,
        } => {
            add_loop_start(
                alloc,
                scope,
                *node,
                test,
                modifies.as_slice(),
                invariants.as_slice(),
                out,
            )?;
            add_loop(
                body.as_slice(),
                alloc,
                typed,
                scope,
                *node,
                test,
                invariants.as_slice(),
                number,
                out,
            )
        }
    }
}

/// Adds one leg of a branch: those of a true test come first.
#[cycle(walk)]
fn add_branch(
    on_true: &[Code],
    on_false: &[Code],
    alloc: Global,
    typed: &Typed,
    scope: Scope,
    node: NodeNo,
    test: &Expr,
    number: u64,
    following: u64,
    out: &mut Items<DraftItem>,
) -> Result<Option<u64>, NoMemory>
    ensures { IfOk result (λ next. (tail : List LegItems) → following ≡ capped (length tail) →
        GoesAlong (in_front (on_true_items node.0 (renamed_expr (kind_of scope) (typed_expr test.now))) (legs_of_code (program_of typed.now) (codes_in scope on_true.now) tail)
        ++ in_front (on_false_items node.0 (renamed_expr (kind_of scope) (typed_expr test.now))) (legs_of_code (program_of typed.now) (codes_in scope on_false.now) tail))
        tail number (items_of out.old) (items_of out.new) next) }
{
    let count = leg_count_behind(on_true, following);
    if number < count {
        add_true(alloc, scope, node, test, out)?;
        add_statements(on_true, alloc, typed, scope, number, following, out)
    } else {
        add_false(alloc, scope, node, test, out)?;
        add_statements(
            on_false,
            alloc,
            typed,
            scope,
            number - count,
            following,
            out,
        )
    }
}

/// Adds one leg of a loop: those through the body come first, which end with its invariants.
#[cycle(walk)]
fn add_loop(
    body: &[Code],
    alloc: Global,
    typed: &Typed,
    scope: Scope,
    node: NodeNo,
    test: &Expr,
    invariants: &[Noted],
    number: u64,
    out: &mut Items<DraftItem>,
) -> Result<Option<u64>, NoMemory>
    ensures { IfOk result (λ next. (tail : List LegItems) →
        GoesAlong (in_front (on_true_items node.0 (renamed_expr (kind_of scope) (typed_expr test.now)))
        (legs_of_code (program_of typed.now) (codes_in scope body.now) (checked Kind.InvKept (own_claims (claims_in scope invariants.now)) ∷ []))
        ++ in_front (on_false_items node.0 (renamed_expr (kind_of scope) (typed_expr test.now))) tail)
        tail number (items_of out.old) (items_of out.new) next) }
{
    let through = leg_count_behind(body, 1);
    if number >= through {
        add_false(alloc, scope, node, test, out)?;
        return Ok(Some(number - through));
    }
    add_true(alloc, scope, node, test, out)?;
    match add_statements(body, alloc, typed, scope, number, 1, out)? {
        None => Ok(None),
        Some(_) => {
            add_own_checked(alloc, Kind::InvKept, scope, invariants, out)?;
            Ok(None)
        }
    }
}

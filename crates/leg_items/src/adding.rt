ghost use Rattle.std.specs.Prelude.{◌≡◌, [], ◌∷◌, ◌++◌, map, OnOk};
ghost use Rattle.lk_claims.specs.Claim.{claim_tree};
ghost use Rattle.lk_claims.specs.Step.{step_trees};
ghost use Rattle.lk_programs.specs.Expr.{typed_expr};
ghost use Rattle.lk_programs.specs.Program.{noted_tree};
ghost use Rattle.program_trees.specs.Claims.{renamed_steps, variable_claim};
ghost use Rattle.program_trees.specs.Legs.{check, fresh, set};
ghost use Rattle.program_trees.specs.Programs.{renamed_expr};
ghost use Rattle.leg_rules.specs.Checks.{demands};
ghost use Rattle.leg_rules.specs.LegNames.{own};
ghost use Rattle.leg_rules.specs.Legs.{at_node, deduce_items, demanded, on_false_items, on_true_items, set_items};
ghost use Rattle.leg_items.specs.Names.{kind_of, leg_name};
ghost use Rattle.leg_items.specs.Drafts.{framed, framed_assumption, framed_check, items_of};

use crate::NoMemory;
use crate::claims::claim_of;
use crate::demands::add_demands;
use crate::draft::{Draft, DraftItem};
use crate::name::{Frame, Name, Scope};
use crate::steps::copy_steps;
use lk_claims::{Claim, ProofStep};
use lk_programs::{Expr, Kind, NodeNo, Noted};
use slang_values::Unary;
use sqlite_items::Items;
use std::alloc::Global;

/// Adds the assumption of each claim.
pub fn add_assumed(
    alloc: Global,
    frame: Frame,
    claims: &[Noted],
    out: &mut Items<DraftItem>,
) -> Result<(), NoMemory>
    ensures { OnOk result (items_of out.new ≡ items_of out.old ++ map (λ noted. framed_assumption frame (noted_tree noted)) claims.now) }
{
    for noted in claims {
        let claim = noted.claim.copy(alloc)?;
        out.push(DraftItem {
            draft: Draft::Assume(frame, claim),
            node: noted.node,
        })?;
    }
    Ok(())
}

/// Adds the check of each claim.
pub fn add_checked(
    alloc: Global,
    kind: Kind,
    frame: Frame,
    claims: &[Noted],
    out: &mut Items<DraftItem>,
) -> Result<(), NoMemory>
    ensures { OnOk result (items_of out.new ≡ items_of out.old ++ map (λ noted. framed_check kind frame (noted_tree noted)) claims.now) }
{
    for noted in claims {
        let claim = noted.claim.copy(alloc)?;
        out.push(DraftItem {
            draft: Draft::Check(kind, frame, claim),
            node: noted.node,
        })?;
    }
    Ok(())
}

/// Adds the check of each claim that a call requires, at one node.
pub fn add_required(
    alloc: Global,
    frame: Frame,
    node: NodeNo,
    claims: &[Noted],
    out: &mut Items<DraftItem>,
) -> Result<(), NoMemory>
    ensures { OnOk result (items_of out.new ≡ items_of out.old
        ++ map (λ noted. at_node node.0 (check Kind.Requires (framed frame (noted_tree noted).claim))) claims.now) }
{
    for noted in claims {
        let claim = noted.claim.copy(alloc)?;
        out.push(DraftItem {
            draft: Draft::Check(Kind::Requires, frame, claim),
            node,
        })?;
    }
    Ok(())
}

/// Adds the checks of an expression.
pub fn add_demanded(
    alloc: Global,
    scope: Scope,
    expr: &Expr,
    out: &mut Items<DraftItem>,
) -> Result<(), NoMemory>
    ensures { OnOk result (items_of out.new ≡ items_of out.old ++ demanded (demands (renamed_expr (kind_of scope) (typed_expr expr.now)))) }
{
    let mut conditions = Items::new(alloc);
    add_demands(alloc, scope, expr, &mut conditions, out)?;
    Ok(())
}

/// Adds that a variable has the value of a claim.
fn add_value(
    scope: Scope,
    node: NodeNo,
    target: u32,
    claim: Claim,
    out: &mut Items<DraftItem>,
) -> Result<(), NoMemory>
    ensures { OnOk result (items_of out.new ≡ items_of out.old ++ at_node node.0 (set (own (kind_of scope target)) (framed (Frame.Own scope) (claim_tree claim))) ∷ []) }
{
    out.push(DraftItem {
        draft: Draft::Set(Frame::Own(scope).name(target), Frame::Own(scope), claim),
        node,
    })?;
    Ok(())
}

/// Adds the checks of an expression, and then that a variable has its value.
pub fn add_set(
    alloc: Global,
    scope: Scope,
    node: NodeNo,
    target: u32,
    value: &Expr,
    out: &mut Items<DraftItem>,
) -> Result<(), NoMemory>
    ensures { OnOk result (items_of out.new ≡ items_of out.old ++ set_items node.0 (kind_of scope target) (renamed_expr (kind_of scope) (typed_expr value.now))) }
{
    add_demanded(alloc, scope, value, out)?;
    let claim = claim_of(alloc, value)?;
    add_value(scope, node, target, claim, out)?;
    Ok(())
}

/// Adds that a test is true.
pub fn add_true(
    alloc: Global,
    scope: Scope,
    node: NodeNo,
    test: &Expr,
    out: &mut Items<DraftItem>,
) -> Result<(), NoMemory>
    ensures { OnOk result (items_of out.new ≡ items_of out.old ++ on_true_items node.0 (renamed_expr (kind_of scope) (typed_expr test.now))) }
{
    let claim = claim_of(alloc, test)?;
    out.push(DraftItem {
        draft: Draft::Assume(Frame::Own(scope), claim),
        node,
    })?;
    Ok(())
}

/// Adds that a test is false.
pub fn add_false(
    alloc: Global,
    scope: Scope,
    node: NodeNo,
    test: &Expr,
    out: &mut Items<DraftItem>,
) -> Result<(), NoMemory>
    ensures { OnOk result (items_of out.new ≡ items_of out.old ++ on_false_items node.0 (renamed_expr (kind_of scope) (typed_expr test.now))) }
{
    let claim = Claim::unary(alloc, Unary::Not, claim_of(alloc, test)?)?;
    out.push(DraftItem {
        draft: Draft::Assume(Frame::Own(scope), claim),
        node,
    })?;
    Ok(())
}

/// Adds that a variable has the value of another.
pub fn add_variable(
    node: NodeNo,
    target: Name,
    source: Name,
    out: &mut Items<DraftItem>,
) -> Result<(), NoMemory>
    ensures { OnOk result (items_of out.new ≡ items_of out.old ++ at_node node.0 (set (leg_name target) (variable_claim (leg_name source))) ∷ []) }
{
    out.push(DraftItem {
        draft: Draft::SetToVariable(target, source),
        node,
    })?;
    Ok(())
}

/// Adds that variables have any values.
pub fn add_fresh(
    node: NodeNo,
    names: Items<Name>,
    out: &mut Items<DraftItem>,
) -> Result<(), NoMemory>
    ensures { OnOk result (items_of out.new ≡ items_of out.old ++ at_node node.0 (fresh (map leg_name names)) ∷ []) }
{
    out.push(DraftItem {
        draft: Draft::Fresh(names),
        node,
    })?;
    Ok(())
}

/// Adds a proof.
pub fn add_proof(
    alloc: Global,
    scope: Scope,
    node: NodeNo,
    steps: &[ProofStep],
    out: &mut Items<DraftItem>,
) -> Result<(), NoMemory>
    ensures { OnOk result (items_of out.new ≡ items_of out.old ++ deduce_items node.0 (renamed_steps (kind_of scope) (step_trees steps.now))) }
{
    let steps = copy_steps(alloc, steps)?;
    out.push(DraftItem {
        draft: Draft::Proof(Frame::Own(scope), steps),
        node,
    })?;
    Ok(())
}

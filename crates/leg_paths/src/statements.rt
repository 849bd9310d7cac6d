ghost use Rattle.std.specs.Prelude.{◌≡◌, [], ◌∷◌, ◌++◌, map, IfOk, OnOk};
ghost use Rattle.lk_claims.specs.Step.{step_trees};
ghost use Rattle.lk_programs.specs.Expr.{typed_expr};
ghost use Rattle.lk_programs.specs.Program.{noted_tree};
ghost use Rattle.program_trees.specs.Claims.{renamed_noted};
ghost use Rattle.program_trees.specs.Programs.{renamed_expr};
ghost use Rattle.program_trees.specs.Variables.{result as result_variable};
ghost use Rattle.leg_rules.specs.LegNames.{own};
ghost use Rattle.leg_rules.specs.Legs.{assert_items, assumed, checked, loop_items, own_claims, set_items};
ghost use Rattle.leg_items.specs.Names.{kind_of, leg_name};
ghost use Rattle.leg_items.specs.Drafts.{items_of};
ghost use Rattle.call_items.specs.Frames.{claims_in};

use crate::NoMemory;
use leg_items::{
    Draft, DraftItem, Frame, MethodVariable, Name, Scope, add_assumed, add_checked, add_demanded,
    add_fresh, claim_of,
};
use lk_programs::{Expr, Kind, NodeNo, Noted};
use sqlite_items::Items;
use std::alloc::Global;

/// Adds that the result has a value.
pub fn add_returned(
    alloc: Global,
    scope: Scope,
    node: NodeNo,
    value: &Expr,
    out: &mut Items<DraftItem>,
) -> Result<(), NoMemory>
    ensures { OnOk result (items_of out.new ≡ items_of out.old ++ set_items node.0 result_variable (renamed_expr (kind_of scope) (typed_expr value.now))) }
{
    add_demanded(alloc, scope, value, out)?;
    let claim = claim_of(alloc, value)?;
    out.push(DraftItem {
        draft: Draft::Set(Name::Own(MethodVariable::Result), Frame::Own(scope), claim),
        node,
    })
}

/// Adds the check of a claim that is asserted.
pub fn add_asserted(
    alloc: Global,
    scope: Scope,
    noted: &Noted,
    out: &mut Items<DraftItem>,
) -> Result<(), NoMemory>
    ensures { OnOk result (items_of out.new ≡ items_of out.old ++ assert_items (renamed_noted (kind_of scope) (noted_tree noted.now))) }
{
    let claim = noted.claim.copy(alloc)?;
    out.push(DraftItem {
        draft: Draft::Check(Kind::Assert, Frame::Own(scope), claim),
        node: noted.node,
    })
}

/// Adds the check of each claim of the method itself.
pub fn add_own_checked(
    alloc: Global,
    kind: Kind,
    scope: Scope,
    claims: &[Noted],
    out: &mut Items<DraftItem>,
) -> Result<(), NoMemory>
    ensures { OnOk result (items_of out.new ≡ items_of out.old ++ checked kind (own_claims (claims_in scope claims.now))) }
{
    add_checked(alloc, kind, Frame::Own(scope), claims, out)
}

/// Adds the assumption of each claim of the method itself.
pub fn add_own_assumed(
    alloc: Global,
    scope: Scope,
    claims: &[Noted],
    out: &mut Items<DraftItem>,
) -> Result<(), NoMemory>
    ensures { OnOk result (items_of out.new ≡ items_of out.old ++ assumed (own_claims (claims_in scope claims.now))) }
{
    add_assumed(alloc, Frame::Own(scope), claims, out)
}

/// The variables of those numbers.
fn own_names(alloc: Global, scope: Scope, numbers: &[u32]) -> Result<Items<Name>, NoMemory>
    ensures { IfOk result (λ names. map leg_name names ≡ map own (map (kind_of scope) numbers.now)) }
{
    let mut names = Items::new(alloc);
    for number in numbers {
        names.push(Frame::Own(scope).name(*number))?;
    }
    Ok(names)
}

/// Adds what stands in front of both ways out of a loop's test: its invariants are checked, what it modifies has any values that
/// meet them, and the test does not fail.
pub fn add_loop_start(
    alloc: Global,
    scope: Scope,
    node: NodeNo,
    test: &Expr,
    modifies: &[u32],
    invariants: &[Noted],
    out: &mut Items<DraftItem>,
) -> Result<(), NoMemory>
    ensures { OnOk result (items_of out.new ≡ items_of out.old
        ++ loop_items node.0 (renamed_expr (kind_of scope) (typed_expr test.now)) (map (kind_of scope) modifies.now) (claims_in scope invariants.now)) }
{
    add_own_checked(alloc, Kind::InvStart, scope, invariants, out)?;
    add_fresh(node, own_names(alloc, scope, modifies)?, out)?;
    add_own_assumed(alloc, scope, invariants, out)?;
    add_demanded(alloc, scope, test, out)
}

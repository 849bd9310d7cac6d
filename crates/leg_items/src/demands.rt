ghost use Rattle.std.specs.Prelude.{◌≡◌, [], ◌∷◌, ◌++◌, map, IfOk, OnOk};
ghost use Rattle.lk_claims.specs.Claim.{claim_tree};
ghost use Rattle.lk_programs.specs.Expr.{typed_expr};
ghost use Rattle.program_trees.specs.Operators.{divides as divides_right};
ghost use Rattle.program_trees.specs.Programs.{claim_of as claim_of_expr};
ghost use Rattle.leg_rules.specs.Checks.{argument_demands, demands, guarded, in_range, is_not_zero, own_division};
ghost use Rattle.leg_items.specs.Drafts.{items_of};
ghost use Rattle.leg_items.specs.Demands.{IsWithoutLast, at_least_zero, demanded_under, evaluated_data, implied_by, operator_evaluated, range_demand, under_size};

use crate::NoMemory;
use crate::claims::claim_of;
use crate::draft::{Draft, DraftItem};
use crate::name::{Frame, Scope};
use lk_claims::Claim;
use lk_programs::{Expr, ExprShape, Kind, NodeNo};
use owned_results::both;
use slang_tree::Operator;
use slang_values::{Binary, Unary};
use sqlite_items::Items;
use std::alloc::Global;

/// When a program evaluates the right operand.
#[derive(Clone, Copy)]
pub enum Evaluated {
    Always,
    /// Where the left operand is true.
    WhereTrue,
    /// Where it is false.
    WhereFalse,
}

fn right_evaluated(operator: Operator) -> Evaluated
    ensures { evaluated_data result ≡ operator_evaluated operator }
{
    match operator {
        Operator::CondAnd | Operator::CondImply | Operator::LooseCondImply => Evaluated::WhereTrue,
        Operator::CondOr => Evaluated::WhereFalse,
        _ => Evaluated::Always,
    }
}

/// Whether the operator divides by its right operand.
fn divides(operator: Operator) -> bool
    ensures { result ≡ divides_right operator }
{
    matches!(operator, Operator::Div | Operator::Rem)
}

/// The claim, where the conditions hold.
fn implied(alloc: Global, conditions: &[Claim], shown: Claim) -> Result<Claim, NoMemory>
    ensures { IfOk result (λ c. claim_tree c ≡ implied_by (map claim_tree conditions.now) (claim_tree shown)) }
{
    let mut claim = shown;
    let mut at = conditions.len();
    'conditions: while at > 0 {
        at -= 1;
        let (condition, later) = both(conditions[at].copy(alloc), Ok(claim))?;
        claim = Claim::binary(alloc, Binary::Imply, condition, later)?;
    }
    Ok(claim)
}

/// `!(d == 0)`
fn not_zero(alloc: Global, divisor: &Expr) -> Result<Claim, NoMemory>
    ensures { IfOk result (λ c. claim_tree c ≡ is_not_zero (claim_of_expr (typed_expr divisor.now))) }
{
    let divisor = claim_of(alloc, divisor)?;
    let is_zero = Claim::binary(alloc, Binary::Eq, divisor, Claim::Lit(0))?;
    Claim::unary(alloc, Unary::Not, is_zero)
}

/// `0 <= i`
fn not_negative(alloc: Global, index: &Expr) -> Result<Claim, NoMemory>
    ensures { IfOk result (λ c. claim_tree c ≡ at_least_zero (claim_of_expr (typed_expr index.now))) }
{
    Claim::binary(alloc, Binary::Le, Claim::Lit(0), claim_of(alloc, index)?)
}

/// `i < a.size`
fn below_size(alloc: Global, head: &Expr, index: &Expr) -> Result<Claim, NoMemory>
    ensures { IfOk result (λ c. claim_tree c ≡ under_size (claim_of_expr (typed_expr head.now)) (claim_of_expr (typed_expr index.now))) }
{
    let size = Claim::unary(alloc, Unary::Size, claim_of(alloc, head)?);
    let (index, size) = both(claim_of(alloc, index), size)?;
    Claim::binary(alloc, Binary::Lt, index, size)
}

/// `0 <= i & i < a.size`
fn is_in_range(alloc: Global, head: &Expr, index: &Expr) -> Result<Claim, NoMemory>
    ensures { IfOk result (λ c. claim_tree c ≡ in_range (claim_of_expr (typed_expr head.now)) (claim_of_expr (typed_expr index.now))) }
{
    let (low, high) = both(not_negative(alloc, index), below_size(alloc, head, index))?;
    Claim::binary(alloc, Binary::And, low, high)
}

/// Adds the check of a claim, under the conditions.
fn add_check(
    alloc: Global,
    scope: Scope,
    kind: Kind,
    node: NodeNo,
    conditions: &[Claim],
    claim: Claim,
    out: &mut Items<DraftItem>,
) -> Result<(), NoMemory>
    ensures { OnOk result (items_of out.new ≡ items_of out.old ++ demanded_under scope (map claim_tree conditions.now)
        (record { kind = kind; claim = claim_tree claim; node = node.0 } ∷ [])) }
{
    let claim = implied(alloc, conditions, claim)?;
    out.push(DraftItem {
        draft: Draft::Check(kind, Frame::Own(scope), claim),
        node,
    })?;
    Ok(())
}

/// Adds what an operator itself asks of its right operand.
fn add_division(
    alloc: Global,
    scope: Scope,
    node: NodeNo,
    operator: Operator,
    right: &Expr,
    conditions: &[Claim],
    out: &mut Items<DraftItem>,
) -> Result<(), NoMemory>
    ensures { OnOk result (items_of out.new ≡ items_of out.old ++ demanded_under scope (map claim_tree conditions.now)
        (own_division node.0 operator (claim_of_expr (typed_expr right.now)))) }
{
    if !divides(operator) {
        return Ok(());
    }
    let claim = not_zero(alloc, right)?;
    add_check(alloc, scope, Kind::Division, node, conditions, claim, out)?;
    Ok(())
}

/// Adds that an index is in range.
fn add_range(
    alloc: Global,
    scope: Scope,
    node: NodeNo,
    head: &Expr,
    index: &Expr,
    conditions: &[Claim],
    out: &mut Items<DraftItem>,
) -> Result<(), NoMemory>
    ensures { OnOk result (items_of out.new ≡ items_of out.old ++ demanded_under scope (map claim_tree conditions.now)
        (range_demand node.0 (claim_of_expr (typed_expr head.now)) (claim_of_expr (typed_expr index.now)) ∷ [])) }
{
    let claim = is_in_range(alloc, head, index)?;
    add_check(alloc, scope, Kind::Index, node, conditions, claim, out)?;
    Ok(())
}

/// Adds what an expression asks for so that it does not fail, in the order of evaluation, each under the conditions.
#[cycle(demands)]
pub fn add_demands(
    alloc: Global,
    scope: Scope,
    expr: &Expr,
    conditions: &mut Items<Claim>,
    out: &mut Items<DraftItem>,
) -> Result<(), NoMemory>
    ensures items { OnOk result (items_of out.new ≡ items_of out.old ++ demanded_under scope (map claim_tree conditions.old) (demands (typed_expr expr.now))) }
    ensures conditions { OnOk result (conditions.new ≡ conditions.old) }
{
    match expr.shape() {
        ExprShape::Literal(_, _) => Ok(()),
        ExprShape::Truth(_, _) => Ok(()),
        ExprShape::Variable(_, _) => Ok(()),
        ExprShape::Unary(_, _, a) => add_demands(alloc, scope, a, conditions, out),
        ExprShape::Binary(node, operator, a, b) => {
            add_demands(alloc, scope, a, conditions, out)?;
            add_right_demands(alloc, scope, a, b, operator, conditions, out)?;
            add_division(alloc, scope, node, operator, b, conditions.as_slice(), out)
        }
        ExprShape::Read(node, a, i) => {
            add_demands(alloc, scope, a, conditions, out)?;
            add_demands(alloc, scope, i, conditions, out)?;
            add_range(alloc, scope, node, a, i, conditions.as_slice(), out)
        }
        ExprShape::Update(node, a, i, x) => {
            add_demands(alloc, scope, a, conditions, out)?;
            add_demands(alloc, scope, i, conditions, out)?;
            add_demands(alloc, scope, x, conditions, out)?;
            add_range(alloc, scope, node, a, i, conditions.as_slice(), out)
        }
        ExprShape::Sequence(_, _, es) => add_all_demands(alloc, scope, es, conditions, out),
        ExprShape::Record(_, _, es) => add_all_demands(alloc, scope, es, conditions, out),
    }
}

/// Adds what the right operand asks for, where it is evaluated.
#[cycle(demands)]
fn add_right_demands(
    alloc: Global,
    scope: Scope,
    left: &Expr,
    right: &Expr,
    operator: Operator,
    conditions: &mut Items<Claim>,
    out: &mut Items<DraftItem>,
) -> Result<(), NoMemory>
    ensures items { OnOk result (items_of out.new ≡ items_of out.old ++ demanded_under scope (map claim_tree conditions.old)
        (guarded (operator_evaluated operator) (claim_of_expr (typed_expr left.now)) (demands (typed_expr right.now)))) }
    ensures conditions { OnOk result (conditions.new ≡ conditions.old) }
{
    match right_evaluated(operator) {
        Evaluated::Always => add_demands(alloc, scope, right, conditions, out),
        Evaluated::WhereTrue => {
            conditions.push(claim_of(alloc, left)?)?;
            add_demands_within(alloc, scope, right, conditions, out)
        }
        Evaluated::WhereFalse => {
            conditions.push(Claim::unary(alloc, Unary::Not, claim_of(alloc, left)?)?)?;
            add_demands_within(alloc, scope, right, conditions, out)
        }
    }
}

/// Adds what an expression asks for, and takes the last condition away.
#[cycle(demands)]
fn add_demands_within(
    alloc: Global,
    scope: Scope,
    expr: &Expr,
    conditions: &mut Items<Claim>,
    out: &mut Items<DraftItem>,
) -> Result<(), NoMemory>
    ensures items { OnOk result (items_of out.new ≡ items_of out.old ++ demanded_under scope (map claim_tree conditions.old) (demands (typed_expr expr.now))) }
    ensures conditions { OnOk result (IsWithoutLast conditions.old conditions.new) }
{
    add_demands(alloc, scope, expr, conditions, out)?;
    let _ = conditions.pop();
    Ok(())
}

#[cycle(demands)]
#[tactic(auto, using(lk_programs::proofs::Sizes::deepest_lines))]
fn add_all_demands(
    alloc: Global,
    scope: Scope,
    exprs: &[Expr],
    conditions: &mut Items<Claim>,
    out: &mut Items<DraftItem>,
) -> Result<(), NoMemory>
    ensures items { OnOk result (items_of out.new ≡ items_of out.old ++ demanded_under scope (map claim_tree conditions.old) (argument_demands (map typed_expr exprs.now))) }
    ensures conditions { OnOk result (conditions.new ≡ conditions.old) }
{
    for expr in exprs {
        add_demands(alloc, scope, expr, conditions, out)?;
    }
    Ok(())
}

ghost use Rattle.std.specs.Prelude.{◌≡◌, IfOk, map};
ghost use Rattle.slang_values.specs.Tree.{unary, update, quantified, listed, sequence_of};
ghost use Rattle.program_trees.specs.Operators.{connected};
ghost use Rattle.lk_claims.specs.Claim.{claim_tree, claim_trees, value_type};
ghost use Rattle.claim_making.specs.Parts.{FromOne, FromThree, FromTwo};
ghost use Rattle.claim_making.specs.Made.{applied_tree, first_tree};

use crate::NoMemory;
use lk_claims::{Claim, Ty};
use owned_results::{all_three, both};
use slang_tree::Operator;
use slang_values::{Binary, Quantifier, Unary};
use sqlite_items::Items;
use std::alloc::Global;
use typed_parts::Head;

/// An operator in front of an operand.
pub fn prefixed(
    alloc: Global,
    op: Unary,
    operand: Result<Claim, NoMemory>,
) -> Result<Claim, NoMemory>
    ensures { IfOk result (FromOne operand (λ a claim. claim_tree claim ≡ unary op (claim_tree a))) }
{
    Claim::unary(alloc, op, operand?)
}

/// What is selected from what stands in front.
pub fn selection(
    alloc: Global,
    op: Result<Unary, NoMemory>,
    head: Result<Claim, NoMemory>,
) -> Result<Claim, NoMemory>
    ensures { IfOk result (FromTwo op head (λ o a claim. claim_tree claim ≡ unary o (claim_tree a))) }
{
    let (op, head) = both(op, head)?;
    Claim::unary(alloc, op, head)
}

/// An operator between two operands.
pub fn connection(
    alloc: Global,
    operator: Operator,
    left: Result<Claim, NoMemory>,
    right: Result<Claim, NoMemory>,
) -> Result<Claim, NoMemory>
    ensures { IfOk result (FromTwo left right (λ a b claim. claim_tree claim ≡ connected operator (claim_tree a) (claim_tree b))) }
{
    let (left, right) = both(left, right)?;
    Claim::connected(alloc, operator, left, right)
}

/// A sequence with another element at an index.
pub fn updated(
    alloc: Global,
    head: Result<Claim, NoMemory>,
    index: Result<Claim, NoMemory>,
    element: Result<Claim, NoMemory>,
) -> Result<Claim, NoMemory>
    ensures { IfOk result (FromThree head index element (λ a i x claim. claim_tree claim ≡ update (claim_tree a) (claim_tree i) (claim_tree x))) }
{
    let (head, index, element) = all_three(head, index, element)?;
    Claim::update(alloc, head, index, element)
}

/// A quantifier over a range.
pub fn quantification(
    alloc: Global,
    quantifier: Quantifier,
    low: Result<Claim, NoMemory>,
    high: Result<Claim, NoMemory>,
    body: Result<Claim, NoMemory>,
) -> Result<Claim, NoMemory>
    ensures { IfOk result (FromThree low high body (λ a b c claim. claim_tree claim ≡ quantified quantifier (claim_tree a) (claim_tree b) (claim_tree c))) }
{
    let (low, high, body) = all_three(low, high, body)?;
    Claim::quantified(alloc, quantifier, low, high, body)
}

/// A sequence of elements of this type.
#[tactic(auto, using(lk_claims::proofs::Trees::claim_lines))]
pub fn sequence(
    ty: Result<Ty, NoMemory>,
    elements: Result<Items<Claim>, NoMemory>,
) -> Result<Claim, NoMemory>
    ensures { IfOk result (FromTwo ty elements (λ t cs claim. claim_tree claim ≡ listed (sequence_of (value_type t)) (claim_trees cs))) }
{
    let (ty, elements) = both(ty, elements)?;
    Ok(Claim::SeqLit(ty, elements))
}

/// The first of some claims, or else 0.
#[tactic(auto, using(lk_claims::proofs::Trees::leaf_lines))]
fn first(mut claims: Items<Claim>) -> Claim
    ensures { claim_tree result ≡ first_tree (map claim_tree claims) }
{
    if claims.is_empty() {
        Claim::Lit(0)
    } else {
        claims.remove(0)
    }
}

/// A head that is applied to arguments.
#[tactic(auto, using(lk_claims::proofs::Trees::claim_lines))]
pub fn application(
    alloc: Global,
    kind: Head,
    head: Result<Claim, NoMemory>,
    arguments: Result<Items<Claim>, NoMemory>,
) -> Result<Claim, NoMemory>
    ensures { IfOk result (FromTwo head arguments (λ a cs claim. claim_tree claim ≡ applied_tree kind (claim_tree a) (map claim_tree cs))) }
{
    let (head, arguments) = both(head, arguments)?;
    match kind {
        Head::Value => Claim::binary(alloc, Binary::Read, head, first(arguments)),
        Head::Record(number) => Ok(Claim::Rec(number, arguments)),
        Head::Method(_) => Ok(Claim::Lit(0)),
    }
}

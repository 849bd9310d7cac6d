ghost use Rattle.std.specs.Prelude.{◌≡◌, IfOk};
ghost use Rattle.slang_values.specs.Tree.{unary, binary, update, quantified, truth_literal};
ghost use Rattle.lk_claims.specs.Claim.{claim_tree};

use crate::NoMemory;
use crate::claim::Claim;
use owned_results::{all_three, both};
use slang_values::{Binary, Quantifier, Unary};
use sqlite_items::Boxed;
use std::alloc::Global;

impl Claim {
    #[tactic(auto, using(crate::proofs::Trees::leaf_lines))]
    pub fn truth(value: bool) -> Claim
        ensures { claim_tree result ≡ truth_literal value }
    {
        if value { Claim::True } else { Claim::False }
    }

    pub fn unary(alloc: Global, op: Unary, a: Claim) -> Result<Claim, NoMemory>
        ensures { IfOk result (λ t. claim_tree t ≡ unary op (claim_tree a)) }
    {
        let a = Boxed::new(alloc, a)?;
        match op {
            Unary::Neg => Ok(Claim::Neg(a)),
            Unary::Not => Ok(Claim::Not(a)),
            Unary::Size => Ok(Claim::Size(a)),
            Unary::Field(k) => Ok(Claim::Field(a, k)),
        }
    }

    pub fn binary(alloc: Global, op: Binary, a: Claim, b: Claim) -> Result<Claim, NoMemory>
        ensures { IfOk result (λ t. claim_tree t ≡ binary op (claim_tree a) (claim_tree b)) }
    {
        let (a, b) = boxed_two(alloc, a, b)?;
        match op {
            Binary::Add => Ok(Claim::Add(a, b)),
            Binary::Sub => Ok(Claim::Sub(a, b)),
            Binary::Mul => Ok(Claim::Mul(a, b)),
            Binary::Div => Ok(Claim::Div(a, b)),
            Binary::Rem => Ok(Claim::Rem(a, b)),
            Binary::And => Ok(Claim::And(a, b)),
            Binary::Or => Ok(Claim::Or(a, b)),
            Binary::Imply => Ok(Claim::Imply(a, b)),
            Binary::Eq => Ok(Claim::Eq(a, b)),
            Binary::Lt => Ok(Claim::Lt(a, b)),
            Binary::Le => Ok(Claim::Le(a, b)),
            Binary::Read => Ok(Claim::Read(a, b)),
            Binary::Append => Ok(Claim::Append(a, b)),
        }
    }

    /// The sequence with another element at a place.
    #[tactic(auto, using(crate::proofs::Trees::update_lines))]
    pub fn update(alloc: Global, a: Claim, i: Claim, x: Claim) -> Result<Claim, NoMemory>
        ensures { IfOk result (λ t. claim_tree t ≡ update (claim_tree a) (claim_tree i) (claim_tree x)) }
    {
        let (a, i, x) = boxed_three(alloc, a, i, x)?;
        Ok(Claim::Update(a, i, x))
    }

    pub fn quantified(
        alloc: Global,
        quantifier: Quantifier,
        low: Claim,
        high: Claim,
        body: Claim,
    ) -> Result<Claim, NoMemory>
        ensures { IfOk result (λ t. claim_tree t ≡ quantified quantifier (claim_tree low) (claim_tree high) (claim_tree body)) }
    {
        let (low, high, body) = boxed_three(alloc, low, high, body)?;
        match quantifier {
            Quantifier::All => Ok(Claim::All(low, high, body)),
            Quantifier::Exists => Ok(Claim::Exists(low, high, body)),
        }
    }
}

fn boxed_two(alloc: Global, a: Claim, b: Claim) -> Result<(Boxed<Claim>, Boxed<Claim>), NoMemory>
    ensures { IfOk result (λ p. (p.0 ≡ a) × (p.1 ≡ b)) }
{
    both(Boxed::new(alloc, a), Boxed::new(alloc, b))
}

fn boxed_three(
    alloc: Global,
    a: Claim,
    b: Claim,
    c: Claim,
) -> Result<(Boxed<Claim>, Boxed<Claim>, Boxed<Claim>), NoMemory>
    ensures { IfOk result (λ p. (p.0 ≡ a) × (p.1 ≡ b) × (p.2 ≡ c)) }
{
    all_three(
        Boxed::new(alloc, a),
        Boxed::new(alloc, b),
        Boxed::new(alloc, c),
    )
}

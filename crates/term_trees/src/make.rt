ghost use Rattle.std.specs.Prelude.{◌≡◌, IfOk};
ghost use Rattle.slang_values.specs.Tree.{unary, binary, update, quantified, truth_literal};
ghost use Rattle.term_trees.specs.Term.{tree};

use crate::NoMemory;
use crate::term::Term;
use slang_values::{Binary, Quantifier, Unary};
use sqlite_items::Boxed;
use std::alloc::Global;

impl Term {
    #[tactic(auto, using(crate::proofs::Trees::leaf_lines))]
    pub fn truth(value: bool) -> Term
        ensures { tree result ≡ truth_literal value }
    {
        if value { Term::True } else { Term::False }
    }

    pub fn unary(alloc: Global, op: Unary, a: Term) -> Result<Term, NoMemory>
        ensures { IfOk result (λ t. tree t ≡ unary op (tree a)) }
    {
        let a = Boxed::new(alloc, a)?;
        match op {
            Unary::Neg => Ok(Term::Neg(a)),
            Unary::Not => Ok(Term::Not(a)),
            Unary::Size => Ok(Term::Size(a)),
            Unary::Field(k) => Ok(Term::Field(a, k)),
        }
    }

    pub fn binary(alloc: Global, op: Binary, a: Term, b: Term) -> Result<Term, NoMemory>
        ensures { IfOk result (λ t. tree t ≡ binary op (tree a) (tree b)) }
    {
        let (a, b) = boxed_two(alloc, a, b)?;
        match op {
            Binary::Add => Ok(Term::Add(a, b)),
            Binary::Sub => Ok(Term::Sub(a, b)),
            Binary::Mul => Ok(Term::Mul(a, b)),
            Binary::Div => Ok(Term::Div(a, b)),
            Binary::Rem => Ok(Term::Rem(a, b)),
            Binary::And => Ok(Term::And(a, b)),
            Binary::Or => Ok(Term::Or(a, b)),
            Binary::Imply => Ok(Term::Imply(a, b)),
            Binary::Eq => Ok(Term::Eq(a, b)),
            Binary::Lt => Ok(Term::Lt(a, b)),
            Binary::Le => Ok(Term::Le(a, b)),
            Binary::Read => Ok(Term::Read(a, b)),
            Binary::Append => Ok(Term::Append(a, b)),
        }
    }

    /// The sequence with another element at a place.
    #[tactic(auto, using(crate::proofs::Trees::update_lines))]
    pub fn update(alloc: Global, a: Term, i: Term, x: Term) -> Result<Term, NoMemory>
        ensures { IfOk result (λ t. tree t ≡ update (tree a) (tree i) (tree x)) }
    {
        let (a, i, x) = boxed_three(alloc, a, i, x)?;
        Ok(Term::Update(a, i, x))
    }

    pub fn quantified(
        alloc: Global,
        quantifier: Quantifier,
        low: Term,
        high: Term,
        body: Term,
    ) -> Result<Term, NoMemory>
        ensures { IfOk result (λ t. tree t ≡ quantified quantifier (tree low) (tree high) (tree body)) }
    {
        let (low, high, body) = boxed_three(alloc, low, high, body)?;
        match quantifier {
            Quantifier::All => Ok(Term::All(low, high, body)),
            Quantifier::Exists => Ok(Term::Exists(low, high, body)),
        }
    }
}

fn boxed_two(alloc: Global, a: Term, b: Term) -> Result<(Boxed<Term>, Boxed<Term>), NoMemory>
    ensures { IfOk result (λ p. (p.0 ≡ a) × (p.1 ≡ b)) }
{
    let a = Boxed::new(alloc, a)?;
    let b = Boxed::new(alloc, b)?;
    Ok((a, b))
}

fn boxed_three(
    alloc: Global,
    a: Term,
    b: Term,
    c: Term,
) -> Result<(Boxed<Term>, Boxed<Term>, Boxed<Term>), NoMemory>
    ensures { IfOk result (λ p. (p.0 ≡ a) × (p.1 ≡ b) × (p.2 ≡ c)) }
{
    let (a, b) = boxed_two(alloc, a, b)?;
    let c = Boxed::new(alloc, c)?;
    Ok((a, b, c))
}

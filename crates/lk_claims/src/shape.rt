ghost use Rattle.lk_claims.specs.Shape.{IsShapeOf};

use crate::claim::Claim;
use crate::ty::Ty;
use slang_values::{Binary, Quantifier, Unary};

/// A claim by its operator and its parts.
#[derive(Clone, Copy)]
pub enum Shape<'a> {
    Literal(i128),
    Truth(bool),
    Variable(u32),
    Bound(u32),
    OldVariable(u32),
    /// By the label of its block.
    LetSymbol(u32),
    Unary(Unary, &'a Claim),
    Binary(Binary, &'a Claim, &'a Claim),
    /// The sequence, the place and the new element.
    Update(&'a Claim, &'a Claim, &'a Claim),
    /// Low, high and body.
    Quantified(Quantifier, &'a Claim, &'a Claim, &'a Claim),
    Sequence(&'a Ty, &'a [Claim]),
    Record(u32, &'a [Claim]),
}

impl Claim {
    #[tactic(auto, using(crate::proofs::Trees::leaf_lines))]
    pub fn shape(&self) -> Shape<'_>
        ensures { IsShapeOf self.now result }
    {
        match self {
            Claim::Lit(z) => Shape::Literal(*z),
            Claim::True => Shape::Truth(true),
            Claim::False => Shape::Truth(false),
            Claim::Var(n) => Shape::Variable(*n),
            Claim::Bound(n) => Shape::Bound(*n),
            Claim::OldVar(n) => Shape::OldVariable(*n),
            Claim::LetSym(label) => Shape::LetSymbol(*label),
            Claim::Neg(a) => Shape::Unary(Unary::Neg, a.get()),
            Claim::Not(a) => Shape::Unary(Unary::Not, a.get()),
            Claim::Add(a, b) => Shape::Binary(Binary::Add, a.get(), b.get()),
            Claim::Sub(a, b) => Shape::Binary(Binary::Sub, a.get(), b.get()),
            Claim::Mul(a, b) => Shape::Binary(Binary::Mul, a.get(), b.get()),
            Claim::Div(a, b) => Shape::Binary(Binary::Div, a.get(), b.get()),
            Claim::Rem(a, b) => Shape::Binary(Binary::Rem, a.get(), b.get()),
            Claim::And(a, b) => Shape::Binary(Binary::And, a.get(), b.get()),
            Claim::Or(a, b) => Shape::Binary(Binary::Or, a.get(), b.get()),
            Claim::Imply(a, b) => Shape::Binary(Binary::Imply, a.get(), b.get()),
            Claim::Eq(a, b) => Shape::Binary(Binary::Eq, a.get(), b.get()),
            Claim::Lt(a, b) => Shape::Binary(Binary::Lt, a.get(), b.get()),
            Claim::Le(a, b) => Shape::Binary(Binary::Le, a.get(), b.get()),
            Claim::Size(a) => Shape::Unary(Unary::Size, a.get()),
            Claim::Read(a, i) => Shape::Binary(Binary::Read, a.get(), i.get()),
            Claim::Update(a, i, x) => Shape::Update(a.get(), i.get(), x.get()),
            Claim::Append(a, x) => Shape::Binary(Binary::Append, a.get(), x.get()),
            Claim::SeqLit(s, ts) => Shape::Sequence(s, ts.as_slice()),
            Claim::Rec(n, ts) => Shape::Record(*n, ts.as_slice()),
            Claim::Field(a, k) => Shape::Unary(Unary::Field(*k), a.get()),
            Claim::All(low, high, body) => {
                Shape::Quantified(Quantifier::All, low.get(), high.get(), body.get())
            }
            Claim::Exists(low, high, body) => {
                Shape::Quantified(Quantifier::Exists, low.get(), high.get(), body.get())
            }
        }
    }
}

ghost use Rattle.term_trees.specs.Shape.{IsShapeOf};

use crate::term::{Sort, Term};
use slang_values::{Binary, Quantifier, Unary};

/// A term by its operator and its parts.
#[derive(Clone, Copy)]
pub enum Shape<'a> {
    Literal(i128),
    Truth(bool),
    Symbol(u32),
    Bound(u32),
    Unary(Unary, &'a Term),
    Binary(Binary, &'a Term, &'a Term),
    /// The sequence, the place and the new element.
    Update(&'a Term, &'a Term, &'a Term),
    /// Low, high and body.
    Quantified(Quantifier, &'a Term, &'a Term, &'a Term),
    Sequence(&'a Sort, &'a [Term]),
    Record(u32, &'a [Term]),
}

impl Term {
    #[tactic(auto, using(crate::proofs::Trees::leaf_lines))]
    pub fn shape(&self) -> Shape<'_>
        ensures { IsShapeOf self.now result }
    {
        match self {
            Term::Lit(z) => Shape::Literal(*z),
            Term::True => Shape::Truth(true),
            Term::False => Shape::Truth(false),
            Term::Symbol(n) => Shape::Symbol(*n),
            Term::Bound(n) => Shape::Bound(*n),
            Term::Neg(a) => Shape::Unary(Unary::Neg, a.get()),
            Term::Not(a) => Shape::Unary(Unary::Not, a.get()),
            Term::Add(a, b) => Shape::Binary(Binary::Add, a.get(), b.get()),
            Term::Sub(a, b) => Shape::Binary(Binary::Sub, a.get(), b.get()),
            Term::Mul(a, b) => Shape::Binary(Binary::Mul, a.get(), b.get()),
            Term::Div(a, b) => Shape::Binary(Binary::Div, a.get(), b.get()),
            Term::Rem(a, b) => Shape::Binary(Binary::Rem, a.get(), b.get()),
            Term::And(a, b) => Shape::Binary(Binary::And, a.get(), b.get()),
            Term::Or(a, b) => Shape::Binary(Binary::Or, a.get(), b.get()),
            Term::Imply(a, b) => Shape::Binary(Binary::Imply, a.get(), b.get()),
            Term::Eq(a, b) => Shape::Binary(Binary::Eq, a.get(), b.get()),
            Term::Lt(a, b) => Shape::Binary(Binary::Lt, a.get(), b.get()),
            Term::Le(a, b) => Shape::Binary(Binary::Le, a.get(), b.get()),
            Term::Size(a) => Shape::Unary(Unary::Size, a.get()),
            Term::Read(a, i) => Shape::Binary(Binary::Read, a.get(), i.get()),
            Term::Update(a, i, x) => Shape::Update(a.get(), i.get(), x.get()),
            Term::Append(a, x) => Shape::Binary(Binary::Append, a.get(), x.get()),
            Term::SeqLit(s, ts) => Shape::Sequence(s, ts.as_slice()),
            Term::Rec(n, ts) => Shape::Record(*n, ts.as_slice()),
            Term::Field(a, k) => Shape::Unary(Unary::Field(*k), a.get()),
            Term::All(low, high, body) => {
                Shape::Quantified(Quantifier::All, low.get(), high.get(), body.get())
            }
            Term::Exists(low, high, body) => {
                Shape::Quantified(Quantifier::Exists, low.get(), high.get(), body.get())
            }
        }
    }
}

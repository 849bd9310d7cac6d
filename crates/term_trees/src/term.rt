ghost use Rattle.std.specs.Prelude.{◌≡◌, IfOk};

use crate::NoMemory;
use sqlite_items::{Boxed, Items};
use std::alloc::Global;

/// The sort of a term. A record is named by its number.
#[derive(Drop)]
pub enum Sort {
    Z,
    B,
    Seq(Boxed<Sort>),
    Rec(u32),
}

impl Sort {
    /// The same sort.
    pub fn copy(&self, alloc: Global) -> Result<Sort, NoMemory>
        ensures { IfOk result (λ s. s ≡ self.now) }
    {
        match self {
            Sort::Z => Ok(Sort::Z),
            Sort::B => Ok(Sort::B),
            Sort::Seq(s) => Ok(Sort::Seq(Boxed::new(alloc, s.get().copy(alloc)?)?)),
            Sort::Rec(n) => Ok(Sort::Rec(*n)),
        }
    }
}

/// A term over numbered symbols. A bound variable has the count of the quantifiers between it and its own.
#[derive(Drop)]
pub enum Term {
    Lit(i128),
    True,
    False,
    Symbol(u32),
    Bound(u32),
    Neg(Boxed<Term>),
    Not(Boxed<Term>),
    Add(Boxed<Term>, Boxed<Term>),
    Sub(Boxed<Term>, Boxed<Term>),
    Mul(Boxed<Term>, Boxed<Term>),
    Div(Boxed<Term>, Boxed<Term>),
    Rem(Boxed<Term>, Boxed<Term>),
    And(Boxed<Term>, Boxed<Term>),
    Or(Boxed<Term>, Boxed<Term>),
    Imply(Boxed<Term>, Boxed<Term>),
    Eq(Boxed<Term>, Boxed<Term>),
    Lt(Boxed<Term>, Boxed<Term>),
    Le(Boxed<Term>, Boxed<Term>),
    Size(Boxed<Term>),
    Read(Boxed<Term>, Boxed<Term>),
    /// The sequence, the place and the new element.
    Update(Boxed<Term>, Boxed<Term>, Boxed<Term>),
    Append(Boxed<Term>, Boxed<Term>),
    /// The sort of the elements, and the elements.
    SeqLit(Sort, Items<Term>),
    /// The record's number, and its fields in order.
    Rec(u32, Items<Term>),
    /// A field by its place, from 0.
    Field(Boxed<Term>, u32),
    /// Low, high and body.
    All(Boxed<Term>, Boxed<Term>, Boxed<Term>),
    /// Low, high and body.
    Exists(Boxed<Term>, Boxed<Term>, Boxed<Term>),
}

use crate::ty::Ty;
use sqlite_items::{Boxed, Items};

/// A claim over the variables of a method or of a leg, each by its number. A bound variable has the count of the
/// quantifiers between it and its own.
#[derive(Drop)]
pub enum Claim {
    Lit(i128),
    True,
    False,
    Var(u32),
    Bound(u32),
    /// What a variable was before its last change.
    OldVar(u32),
    Neg(Boxed<Claim>),
    Not(Boxed<Claim>),
    Add(Boxed<Claim>, Boxed<Claim>),
    Sub(Boxed<Claim>, Boxed<Claim>),
    Mul(Boxed<Claim>, Boxed<Claim>),
    Div(Boxed<Claim>, Boxed<Claim>),
    Rem(Boxed<Claim>, Boxed<Claim>),
    And(Boxed<Claim>, Boxed<Claim>),
    Or(Boxed<Claim>, Boxed<Claim>),
    Imply(Boxed<Claim>, Boxed<Claim>),
    Eq(Boxed<Claim>, Boxed<Claim>),
    Lt(Boxed<Claim>, Boxed<Claim>),
    Le(Boxed<Claim>, Boxed<Claim>),
    Size(Boxed<Claim>),
    Read(Boxed<Claim>, Boxed<Claim>),
    /// The sequence, the place and the new element.
    Update(Boxed<Claim>, Boxed<Claim>, Boxed<Claim>),
    Append(Boxed<Claim>, Boxed<Claim>),
    /// The type of the elements, and the elements.
    SeqLit(Ty, Items<Claim>),
    /// The record's number, and its fields in order.
    Rec(u32, Items<Claim>),
    /// A field by its place, from 0.
    Field(Boxed<Claim>, u32),
    /// Low, high and body.
    All(Boxed<Claim>, Boxed<Claim>, Boxed<Claim>),
    /// Low, high and body.
    Exists(Boxed<Claim>, Boxed<Claim>, Boxed<Claim>),
    /// The symbol of a block, by the block's label.
    LetSym(u32),
}

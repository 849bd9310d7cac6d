use lk_claims::Ty;
use sqlite_items::{Boxed, Items};

/// The number of a node of the text, which is a place in `Typed::nodes`.
#[derive(Clone, Copy, Debug, PartialEq, Eq)]
pub struct NodeNo(pub u32);

/// An expression of the program over the variables of its method, each part with its node.
#[derive(Drop)]
pub enum Expr {
    Lit(NodeNo, i128),
    True(NodeNo),
    False(NodeNo),
    Var(NodeNo, u32),
    Neg(NodeNo, Boxed<Expr>),
    Not(NodeNo, Boxed<Expr>),
    /// `__>:`
    LooseImply(NodeNo, Boxed<Expr>, Boxed<Expr>),
    /// `___>:`
    LooseCondImply(NodeNo, Boxed<Expr>, Boxed<Expr>),
    Or(NodeNo, Boxed<Expr>, Boxed<Expr>),
    /// `||`
    CondOr(NodeNo, Boxed<Expr>, Boxed<Expr>),
    And(NodeNo, Boxed<Expr>, Boxed<Expr>),
    /// `&&`
    CondAnd(NodeNo, Boxed<Expr>, Boxed<Expr>),
    Eq(NodeNo, Boxed<Expr>, Boxed<Expr>),
    Ne(NodeNo, Boxed<Expr>, Boxed<Expr>),
    Lt(NodeNo, Boxed<Expr>, Boxed<Expr>),
    Le(NodeNo, Boxed<Expr>, Boxed<Expr>),
    Gt(NodeNo, Boxed<Expr>, Boxed<Expr>),
    Ge(NodeNo, Boxed<Expr>, Boxed<Expr>),
    /// `:+`
    Append(NodeNo, Boxed<Expr>, Boxed<Expr>),
    /// `->:`
    Imply(NodeNo, Boxed<Expr>, Boxed<Expr>),
    /// `-->:`
    CondImply(NodeNo, Boxed<Expr>, Boxed<Expr>),
    Add(NodeNo, Boxed<Expr>, Boxed<Expr>),
    Sub(NodeNo, Boxed<Expr>, Boxed<Expr>),
    Mul(NodeNo, Boxed<Expr>, Boxed<Expr>),
    Div(NodeNo, Boxed<Expr>, Boxed<Expr>),
    Rem(NodeNo, Boxed<Expr>, Boxed<Expr>),
    Size(NodeNo, Boxed<Expr>),
    Read(NodeNo, Boxed<Expr>, Boxed<Expr>),
    /// The sequence, the place and the new element.
    Update(NodeNo, Boxed<Expr>, Boxed<Expr>, Boxed<Expr>),
    /// The type of the elements, and the elements.
    SeqLit(NodeNo, Ty, Items<Expr>),
    /// The record's number, and its fields in order.
    Rec(NodeNo, u32, Items<Expr>),
    /// A field by its place, from 0.
    Field(NodeNo, Boxed<Expr>, u32),
}

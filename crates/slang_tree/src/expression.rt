use crate::place::Place;
use crate::text::Text;
use slang_values::Quantifier;
use sqlite_items::{Boxed, Items};

/// A name as it stands in the text.
#[derive(Debug, Drop)]
pub struct Name {
    pub text: Text,
    pub place: Place,
}

/// A type as it stands in the text, with the place of its first token.
#[derive(Drop)]
pub enum TypeName {
    Z(Place),
    B(Place),
    Unit(Place),
    /// `ISZ[element]`.
    Seq(Place, Boxed<TypeName>),
    /// The name of a record.
    Named(Name),
}

/// An operator between two operands. The four implications are `__>:`, `___>:`, `->:` and `-->:` in this order. The
/// conditional ones, `&&` and `||` among them, leave out the right operand where the left one decides. `Append` is
/// `:+`.
#[derive(Clone, Copy, Debug, PartialEq, Eq)]
pub enum Operator {
    LooseImply,
    LooseCondImply,
    Or,
    CondOr,
    And,
    CondAnd,
    Eq,
    Ne,
    Lt,
    Le,
    Gt,
    Ge,
    Append,
    Imply,
    CondImply,
    Add,
    Sub,
    Mul,
    Div,
    Rem,
}

/// An expression. The place is that of the first token, of a binary expression that of its left operand, and of an
/// application, an update or a field that of its head. Round brackets leave nothing in the tree, and the place of what
/// they hold is its own.
#[derive(Drop)]
pub enum Expr {
    Number(Place, i128),
    True(Place),
    False(Place),
    Name(Name),
    /// `Res`, the result of the method, or `Res[type]`.
    Res(Place, Option<TypeName>),
    /// `In(name)`, what a variable was when the method began.
    In(Place, Name),
    /// `Old(name)`, what a variable was before its last change.
    Old(Place, Name),
    /// `-` in front of its operand.
    Minus(Place, Boxed<Expr>),
    /// `!` in front of its operand.
    Not(Place, Boxed<Expr>),
    Binary(Place, Operator, Boxed<Expr>, Boxed<Expr>),
    /// `head(arguments)`.
    Apply(Place, Boxed<Expr>, Items<Expr>),
    /// `head(index ~> element)`.
    Update(Place, Boxed<Expr>, Boxed<Expr>, Boxed<Expr>),
    /// `head.name`.
    Field(Place, Boxed<Expr>, Name),
    /// `ISZ[type](elements)`, or `ISZ(elements)`.
    Sequence(Place, Option<TypeName>, Items<Expr>),
    /// `All(low until high)(name => body)`, or the same of `Exists`.
    Quantified(Place, Quantifier, Boxed<Expr>, Boxed<Expr>, Name, Boxed<Expr>),
    /// `All(head.indices)(name => body)`, or the same of `Exists`.
    QuantifiedIndices(Place, Quantifier, Boxed<Expr>, Name, Boxed<Expr>),
}

use slang_values::{Binary, Quantifier, Unary};
use sqlite_items::Items;
use term_trees::Sort;

/// A term whose parts are numbers of a store. The variants are those of `Term`.
#[derive(Drop)]
pub enum Node {
    Lit(i128),
    True,
    False,
    Symbol(u32),
    Bound(u32),
    Neg(usize),
    Not(usize),
    Add(usize, usize),
    Sub(usize, usize),
    Mul(usize, usize),
    Div(usize, usize),
    Rem(usize, usize),
    And(usize, usize),
    Or(usize, usize),
    Imply(usize, usize),
    Eq(usize, usize),
    Lt(usize, usize),
    Le(usize, usize),
    Size(usize),
    Read(usize, usize),
    /// The sequence, the place and the new element.
    Update(usize, usize, usize),
    Append(usize, usize),
    /// The sort of the elements, and the elements.
    SeqLit(Sort, Items<usize>),
    /// The record's number, and its fields in order.
    Rec(u32, Items<usize>),
    /// A field by its place, from 0.
    Field(usize, u32),
    /// Low, high and body.
    All(usize, usize, usize),
    /// Low, high and body.
    Exists(usize, usize, usize),
}

/// A node by its operator and the numbers of its parts.
#[derive(Clone, Copy)]
pub enum NodeShape<'a> {
    Literal(i128),
    Truth(bool),
    Symbol(u32),
    Bound(u32),
    Unary(Unary, usize),
    Binary(Binary, usize, usize),
    /// The sequence, the place and the new element.
    Update(usize, usize, usize),
    /// Low, high and body.
    Quantified(Quantifier, usize, usize, usize),
    Sequence(&'a Sort, &'a [usize]),
    Record(u32, &'a [usize]),
}

impl Node {
    ghost use Rattle.term_nodes.specs.declared.node.NodeShape.{NodeShape};
    ghost use Rattle.term_nodes.specs.Node.{IsShapeOf};

    pub fn shape(&self) -> NodeShape<'_>
        ensures { IsShapeOf self.now result }
    {
        match self {
            Node::Lit(z) => NodeShape::Literal(*z),
            Node::True => NodeShape::Truth(true),
            Node::False => NodeShape::Truth(false),
            Node::Symbol(n) => NodeShape::Symbol(*n),
            Node::Bound(n) => NodeShape::Bound(*n),
            Node::Neg(a) => NodeShape::Unary(Unary::Neg, *a),
            Node::Not(a) => NodeShape::Unary(Unary::Not, *a),
            Node::Add(a, b) => NodeShape::Binary(Binary::Add, *a, *b),
            Node::Sub(a, b) => NodeShape::Binary(Binary::Sub, *a, *b),
            Node::Mul(a, b) => NodeShape::Binary(Binary::Mul, *a, *b),
            Node::Div(a, b) => NodeShape::Binary(Binary::Div, *a, *b),
            Node::Rem(a, b) => NodeShape::Binary(Binary::Rem, *a, *b),
            Node::And(a, b) => NodeShape::Binary(Binary::And, *a, *b),
            Node::Or(a, b) => NodeShape::Binary(Binary::Or, *a, *b),
            Node::Imply(a, b) => NodeShape::Binary(Binary::Imply, *a, *b),
            Node::Eq(a, b) => NodeShape::Binary(Binary::Eq, *a, *b),
            Node::Lt(a, b) => NodeShape::Binary(Binary::Lt, *a, *b),
            Node::Le(a, b) => NodeShape::Binary(Binary::Le, *a, *b),
            Node::Size(a) => NodeShape::Unary(Unary::Size, *a),
            Node::Read(a, b) => NodeShape::Binary(Binary::Read, *a, *b),
            Node::Update(a, i, x) => NodeShape::Update(*a, *i, *x),
            Node::Append(a, b) => NodeShape::Binary(Binary::Append, *a, *b),
            Node::SeqLit(s, parts) => NodeShape::Sequence(s, parts.as_slice()),
            Node::Rec(n, parts) => NodeShape::Record(*n, parts.as_slice()),
            Node::Field(a, k) => NodeShape::Unary(Unary::Field(*k), *a),
            Node::All(low, high, body) => NodeShape::Quantified(
                Quantifier::All,
                *low,
                *high,
                *body,
            ),
            Node::Exists(low, high, body) => NodeShape::Quantified(
                Quantifier::Exists,
                *low,
                *high,
                *body,
            ),
        }
    }

    pub fn truth(value: bool) -> Node
        ensures { IsShapeOf result (NodeShape.Truth value) }
    {
        if value { Node::True } else { Node::False }
    }

    pub fn unary(op: Unary, a: usize) -> Node
        ensures { IsShapeOf result (NodeShape.Unary op a) }
    {
        match op {
            Unary::Neg => Node::Neg(a),
            Unary::Not => Node::Not(a),
            Unary::Size => Node::Size(a),
            Unary::Field(k) => Node::Field(a, k),
        }
    }

    pub fn binary(op: Binary, a: usize, b: usize) -> Node
        ensures { IsShapeOf result (NodeShape.Binary op a b) }
    {
        match op {
            Binary::Add => Node::Add(a, b),
            Binary::Sub => Node::Sub(a, b),
            Binary::Mul => Node::Mul(a, b),
            Binary::Div => Node::Div(a, b),
            Binary::Rem => Node::Rem(a, b),
            Binary::And => Node::And(a, b),
            Binary::Or => Node::Or(a, b),
            Binary::Imply => Node::Imply(a, b),
            Binary::Eq => Node::Eq(a, b),
            Binary::Lt => Node::Lt(a, b),
            Binary::Le => Node::Le(a, b),
            Binary::Read => Node::Read(a, b),
            Binary::Append => Node::Append(a, b),
        }
    }

    pub fn quantified(quantifier: Quantifier, low: usize, high: usize, body: usize) -> Node
        ensures { IsShapeOf result (NodeShape.Quantified quantifier low high body) }
    {
        match quantifier {
            Quantifier::All => Node::All(low, high, body),
            Quantifier::Exists => Node::Exists(low, high, body),
        }
    }
}

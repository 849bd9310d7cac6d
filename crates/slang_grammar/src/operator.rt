use slang_lexer::TokenKind;
use slang_tree::Operator;

/// A side of an operator.
#[derive(Clone, Copy, Debug, PartialEq, Eq)]
pub enum Side {
    Left,
    Right,
}

/// An operator between two operands.
#[derive(Clone, Copy, Debug, PartialEq, Eq)]
pub struct Infix {
    pub sign: TokenKind,
    pub operator: Operator,
    /// How tightly it binds, from 1 on.
    pub level: u8,
    /// The side to which a chain of such operators joins.
    pub joins: Side,
}

/// An operator before its operand.
#[derive(Clone, Copy, Debug, PartialEq, Eq)]
pub enum Prefix {
    /// `!`
    Not,
    /// `-`
    Minus,
}

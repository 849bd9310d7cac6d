/// An operator with one part. `Field` takes a field by its place, from 0.
#[derive(Clone, Copy)]
pub enum Unary {
    Neg,
    Not,
    Size,
    Field(u32),
}

/// An operator with two parts. `Append` adds an element at the end of a sequence.
#[derive(Clone, Copy)]
pub enum Binary {
    Add,
    Sub,
    Mul,
    Div,
    Rem,
    And,
    Or,
    Imply,
    Eq,
    Lt,
    Le,
    Read,
    Append,
}

#[derive(Clone, Copy)]
pub enum Quantifier {
    All,
    Exists,
}

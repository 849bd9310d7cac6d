/// A block that stands inside a statement of another block: what an `if` does otherwise, or else its first part or the body of a
/// loop.
#[derive(Clone, Copy, Debug, PartialEq, Eq)]
pub struct Inside {
    pub statement: u32,
    pub otherwise: bool,
}

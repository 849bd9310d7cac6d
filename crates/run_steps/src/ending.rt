use expression_values::Env;
use lk_programs::{Kind, NodeNo};

/// Why a run stops: it fails, a value does not fit, or a claim has no visit left, each with the node of which it is told; or
/// for want of memory.
#[derive(Clone, Copy, Debug, PartialEq, Eq)]
pub enum RunEnd {
    Fails(Kind, NodeNo),
    Wide(NodeNo),
    Visits(NodeNo),
    NoMemory,
}

/// What comes next in a run, in front of what is behind a statement.
#[derive(Drop)]
pub enum Next {
    Rest,
    /// A part of an `if`, by the truth value of its test.
    Part(bool),
    Loop,
    /// The method of that number begins with these values. Its result goes to the target, where there is one.
    Method(u32, Option<u32>, Env),
}

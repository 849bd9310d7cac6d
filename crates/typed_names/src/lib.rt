//! What the variables, the types and the fields of a text are in the typed program, and how its nodes are numbered.
#![tactic(auto)]

mod fields;
mod nodes;
mod types;
mod variables;

pub use fields::selector;
pub use nodes::Nodes;
pub use types::{element_ty, ty_of};
pub use variables::{Numbering, VariableKind, variable_named};

/// Want of memory, or of numbers that fit.
pub type NoMemory = std::alloc::AllocError;

//! What is added along one path through a method: the path's statements, and the initial values in front.
#![tactic(auto)]

mod initial;
mod statements;
mod walk;

pub use initial::with_initial_values;
pub use statements::{add_own_assumed, add_own_checked};
pub use walk::add_statements;

/// Want of memory.
pub type NoMemory = std::alloc::AllocError;

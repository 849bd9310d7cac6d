//! What is wrong with a declaration that has a value, and the type of what it declares.
#![tactic(auto)]

mod declared_values;
mod declaring;

pub use declared_values::{declared_by, declared_constant};
pub use declaring::declared;

/// Want of memory.
pub type NoMemory = std::alloc::AllocError;

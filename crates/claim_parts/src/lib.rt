//! The parts of a claim, and the node of a store that stands for it over the numbers of its parts.
#![tactic(auto)]

mod name;
mod node;
mod parts;

pub use name::{Name, name_in};
pub use node::node_over;
pub use parts::{part, part_count};

/// Want of memory.
pub type NoMemory = std::alloc::AllocError;

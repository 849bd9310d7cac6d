//! Terms whose parts are numbers, and what each of them is found by.
#![tactic(auto)]

mod key;
mod node;
mod over;

pub use key::{HeadKey, Key};
pub use node::{Node, NodeShape};
pub use over::node_over;

/// Want of memory.
pub type NoMemory = std::alloc::AllocError;

//! What stands before a declaration of a project, and what is wrong with its name and its number.
#![tactic(auto)]

mod before;
mod counting;
mod naming;

pub use before::Before;
pub use counting::{Counts, counted, judged_count};
pub use naming::judged_name;

/// Want of memory.
pub type NoMemory = std::alloc::AllocError;

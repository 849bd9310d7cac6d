//! What is wrong with the declarations of a project, one after the other.
#![tactic(auto)]

mod declarations;
mod inside;

pub use declarations::judged_decls;

/// Want of memory.
pub type NoMemory = std::alloc::AllocError;

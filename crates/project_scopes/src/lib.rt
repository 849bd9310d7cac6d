//! What is in scope everywhere in a project: one space of names over all its files.
#![tactic(auto)]

mod scopes;

pub use scopes::{ProjectScopes, scopes_of};

/// Want of memory.
pub type NoMemory = std::alloc::AllocError;

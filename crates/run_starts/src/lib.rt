//! What a run of the command begins with: the method of a name, and the values of the globals.
#![tactic(auto)]

mod globals;
mod methods;

pub use globals::initial_globals;
pub use methods::method_named;

/// Want of memory.
pub type NoMemory = std::alloc::AllocError;

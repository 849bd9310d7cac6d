//! What is wrong with a method: its header, its body and its return.
#![tactic(auto)]

mod bodies;
mod methods;
mod scopes;

pub use methods::judged_method;
pub use scopes::{enter_body, leave_method};

/// Want of memory.
pub type NoMemory = std::alloc::AllocError;

//! A leg followed over a store: what is to be shown along it, item by item.
#![tactic(auto)]

mod end;
mod exec;
pub mod laws;

pub use end::{ExecEnd, Next};
pub use exec::Exec;

/// Want of memory.
pub type NoMemory = std::alloc::AllocError;

//! The variables and the records of a leg, each once, in the order in which they first appear on it.
#![tactic(auto)]

mod order;
mod records;
mod types;

pub use order::{Order, order_of};
pub use types::type_of;

/// Want of memory.
pub type NoMemory = std::alloc::AllocError;

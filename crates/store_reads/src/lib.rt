//! Terms of a store, reduced, and the reads in them that depend on conditions.
#![tactic(auto)]

mod adding;
mod marks;
mod nodes;
mod reads;
mod reducing;

pub use adding::{add, add_binary, add_unary};
pub use marks::{Mark, mark_all};
pub use reads::{first_read, with_read};
pub use reducing::reduce;

/// Want of memory.
pub type NoMemory = std::alloc::AllocError;

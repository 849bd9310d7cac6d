//! Terms of a store with a term in place of a bound variable.
#![tactic(auto)]

mod depths;
mod places;
mod substituting;
mod table;

pub use depths::measure_depths;
pub use substituting::substitute;
pub use table::Substitutions;

/// Want of memory.
pub type NoMemory = std::alloc::AllocError;

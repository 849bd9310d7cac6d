//! What formulas of a store are taken apart into: by what stands at their top, and by the first read that depends on conditions.
#![tactic(auto)]

mod conditions;
mod defaults;
mod formulas;
mod lists;
mod read_cases;
mod read_formulas;
mod written;

pub use read_formulas::alternatives;

/// Want of memory.
pub type NoMemory = std::alloc::AllocError;

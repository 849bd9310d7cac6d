//! The rows of a case of literals of a store: what they say of numbers, and what is known of the sizes and quotients in them.
//!
//! The rows of the literals stand first. Behind them stand those of each atom that is a size or a quotient by a number, the least
//! atom first, until none is left. At the end each atom is numbered by its place in the order of terms.
#![tactic(auto)]

mod case;
mod complete;
mod forms;
mod known;
mod literals;

pub use case::rows_of_case;
pub use store_atoms::RowsEnd;

/// Want of memory.
pub type NoMemory = std::alloc::AllocError;

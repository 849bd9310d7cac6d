//! Rows over the terms of a store: their atoms in the order of terms, each once, and the rows with each atom numbered by its place.
#![tactic(auto)]

mod atoms;
mod end;
mod numbering;
mod row;
mod system;

pub use atoms::Atom;
pub use end::RowsEnd;
pub use row::{IdRow, at_least, at_most};
pub use system::System;

/// Want of memory.
pub type NoMemory = std::alloc::AllocError;

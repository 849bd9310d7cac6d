//! Whether a sequent over a store is well sorted, worked out once for each term of the store.
#![tactic(auto)]

mod claims;
mod fitting;
mod records;
mod sequents;
mod sorts;
mod table;

pub use sequents::{is_well_sorted, is_within};

/// Want of memory.
pub type NoMemory = std::alloc::AllocError;

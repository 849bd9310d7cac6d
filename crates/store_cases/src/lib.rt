//! The cases of a sequent whose terms are numbers of a store.
#![tactic(auto)]

mod end;
mod lists;
mod search;
mod splitting;

pub use end::SplitEnd;
pub use splitting::{IdLeaves, cases_of};

/// Want of memory.
pub type NoMemory = std::alloc::AllocError;

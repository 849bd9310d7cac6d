//! Terms as numbers: a list of distinct terms, in which each part of a term stands before it.
#![tactic(auto)]

mod entry;
mod growing;
pub mod laws;
mod measure;
mod sequent;
mod store;

pub use measure::Measure;
pub use sequent::IdSequent;
pub use store::TermStore;
pub use term_nodes::{Node, NodeShape};

/// Want of memory.
pub type NoMemory = std::alloc::AllocError;

//! The first fault of those that were told of so far.
#![tactic(auto)]

mod first_fault;
pub mod laws;

pub use first_fault::FirstFault;

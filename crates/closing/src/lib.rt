//! The literals that close a case, and the rows of a case: definitions over trees, in `specs/`, and their law.
//!
//! The function has no code: its contract is the law, so that the check of this crate proves it.
#![tactic(auto)]

pub mod laws;

//! What is wrong with the names and types of a project, as definitions in `specs/` over the trees of its texts: all faults, each
//! with its place, and the first of each file.
//!
//! The functions have no code: each one's contract is a law, so that the check of this crate proves it.
#![tactic(auto)]

pub mod laws;

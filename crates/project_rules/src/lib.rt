//! Which projects are well typed, as a relation in `specs/`, and that no file of a project has a fault exactly there, as laws.
//!
//! The functions have no code: each one's contract is a law, so that the check of this crate proves it.
#![tactic(auto)]

pub mod laws;

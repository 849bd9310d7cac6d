//! Sequents as plain data, which of them are valid, and trees in place of names: definitions in `specs/`, and their laws.
//!
//! The functions have no code: each one's contract is a law, so that the check of this crate proves it.
#![tactic(auto)]

pub mod laws;

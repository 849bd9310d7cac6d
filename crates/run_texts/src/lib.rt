//! What the command `run` writes of a run, as definitions in `specs/`, with their laws.
//!
//! The functions have no code: each one's contract is a law, so that the check of this crate proves it.
#![tactic(auto)]

pub mod laws;

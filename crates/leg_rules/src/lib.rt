//! The legs of a method, what is to be shown along a leg, and the answers and verdicts that follow, as definitions in `specs/`,
//! with their laws.
//!
//! The functions have no code: each one's contract is a law, so that the check of this crate proves it.
#![tactic(auto)]

pub mod laws;

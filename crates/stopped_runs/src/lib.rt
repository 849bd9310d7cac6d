//! Runs that stop where a value does not fit 128 bits, or where a claim is due more visits than it has: what the
//! command `run` tells of, as definitions in `specs/`, with their laws.
//!
//! The functions have no code: each one's contract is a law, so that the check of this crate proves it.
#![tactic(auto)]

pub mod laws;

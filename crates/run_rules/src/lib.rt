//! What a typed program does: values and failures of expressions, runs of methods by turns, and which methods call which, as
//! definitions in `specs/`, with their laws.
//!
//! The functions have no code: each one's contract is a law, so that the check of this crate proves it.
#![tactic(auto)]

pub mod laws;

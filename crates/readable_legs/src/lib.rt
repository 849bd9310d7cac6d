//! Which legs can be followed over a store: each well-formed one.
//!
//! The function has no code: its contract is a law, so that the check of this crate proves it.
#![tactic(auto)]

pub mod laws;

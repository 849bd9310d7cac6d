//! A project without faults gives a well-typed program, as a law.
//!
//! The function has no code: its contract is a law, so that the check of this crate proves it.
#![tactic(auto)]

pub mod laws;

//! Where `check` verifies all methods that a method reaches, the command `run` tells of no failure of it but that of its own
//! Requires.
//!
//! The functions have no code: each one's contract is a law, so that the check of this crate proves it.
#![tactic(auto)]

pub mod laws;

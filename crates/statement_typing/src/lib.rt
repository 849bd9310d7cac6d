//! The statements and the proofs of a text without faults are well typed in the program, as laws.
//!
//! The functions have no code: each one's contract is a law, so that the check of this crate proves it.
#![tactic(auto)]

pub mod laws;

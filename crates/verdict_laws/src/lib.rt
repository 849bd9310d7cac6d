//! What it says that a method is verified by the rules of closing and of deduction: its legs pass.
//!
//! The functions have no code: each one's contract is a law, so that the check of this crate proves it.
#![tactic(auto)]

pub mod laws;

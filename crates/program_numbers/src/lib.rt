//! A program over variables by their kinds, as the program over numbers that stands for it: a well-typed one comes back, as laws.
//!
//! The functions have no code: each one's contract is a law, so that the check of this crate proves it.
#![tactic(auto)]

pub mod laws;

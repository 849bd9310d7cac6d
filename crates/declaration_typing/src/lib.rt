//! The declarations of a project without faults: its records are well formed in the program, and its methods ascend by their names,
//! as laws.
//!
//! The functions have no code: each one's contract is a law, so that the check of this crate proves it.
#![tactic(auto)]

pub mod laws;

//! Where all methods that a method reaches are verified, no run of it fails: the law that joins what typing, legs, closing, deduction and runs are
//! proved to do.
//!
//! The functions have no code: each one's contract is a law, so that the check of this crate proves it.
#![tactic(auto)]

pub mod laws;

//! Proofs by natural deduction, step by step: which steps are accepted, and why the first refused one is not. Definitions over
//! trees, in `specs/`, and their law.
//!
//! The functions have no code: each one's contract is a law, so that the check of this crate proves it.
#![tactic(auto)]

pub mod laws;

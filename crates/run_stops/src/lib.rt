//! Where the evaluation of an expression or of a claim stops, over numbers of 128 bits and a count of visits, as definitions in `specs/`.
//!
//! The functions have no code: their contracts are laws, so that the check of this crate proves them.
#![tactic(auto)]

pub mod laws;

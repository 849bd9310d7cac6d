//! The words that `run` takes as arguments of a method: which bytes are a constant, and of which type and value, as definitions in
//! `specs/`.
//!
//! The functions have no code: their contracts are laws, so that the check of this crate proves them.
#![tactic(auto)]

pub mod laws;

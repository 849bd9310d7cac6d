//! A term in place of a bound variable: the definition over trees, in `specs/`, and its laws.
//!
//! The functions have no code: each one's contract is a law, so that the check of this crate proves it.
#![tactic(auto)]

pub mod laws;

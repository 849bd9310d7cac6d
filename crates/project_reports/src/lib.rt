//! What `check` says of a project of texts: its faults, or the verdicts on its methods, and the bytes that it prints.
//!
//! The functions have no code: their contracts are laws, so that the check of this crate proves them.
#![tactic(auto)]

pub mod laws;

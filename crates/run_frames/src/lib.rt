//! The stack of a run as frames that name places in the code, and how a run goes on from them, as definitions in `specs/`.
//!
//! The functions have no code: their contracts are laws, so that the check of this crate proves them.
#![tactic(auto)]

pub mod laws;

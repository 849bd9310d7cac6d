//! Which statements and proofs of a text are well typed, as a relation in `specs/`, and that they have no fault exactly there, as a law.
//!
//! The function has no code: its contract is a law, so that the check of this crate proves it.
#![tactic(auto)]

pub mod laws;

//! Which programs are well typed, as a definition in `specs/` that is tried on small programs.
//!
//! The function has no code: its contract is a law, so that the check of this crate proves it.
#![tactic(auto)]

pub mod laws;

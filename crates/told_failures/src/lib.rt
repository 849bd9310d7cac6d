//! What `check` and `run` say of one program agrees: of a method that is verified with all that it reaches, `run` tells
//! of no failure but that of its own Requires.
//!
//! The function has no code: its contract is a law, so that the check of this crate proves it.
#![tactic(auto)]

pub mod laws;

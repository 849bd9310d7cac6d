//! A text of the grammar stays one where its tokens stand at other places, as a law.
//!
//! The function has no code: its contract is a law, so that the check of this crate proves it.
#![tactic(auto)]

pub mod laws;

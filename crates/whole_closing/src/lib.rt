//! Closing a sequent of the whole language, and that what is closed is valid.
#![tactic(auto)]

pub mod laws;

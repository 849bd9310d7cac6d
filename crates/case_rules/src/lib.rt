//! The cases of a formula over the whole language, and that one of them holds where the formula does.
#![tactic(auto)]

pub mod laws;

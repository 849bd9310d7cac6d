//! Goals that are opened, and facts that are taken apart and instanced, over the whole language.
#![tactic(auto)]

pub mod laws;

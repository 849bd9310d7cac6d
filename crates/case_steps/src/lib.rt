//! A formula is taken apart in steps, and each makes it lighter: its cases are those of what it is taken apart into.
#![tactic(auto)]

pub mod laws;

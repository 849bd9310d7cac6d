//! The cases of several formulas, gathered branch by branch: what is found so far, and what is still to be taken apart.
#![tactic(auto)]

pub mod laws;

//! Laws of opened goals, of index terms and of instances, for those who work them out step by step.
#![tactic(auto)]

pub mod laws;

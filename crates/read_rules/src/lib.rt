//! Reads of updates, appends and lists, fields and sizes: what they are, as trees.
#![tactic(auto)]

pub mod laws;

//! What stands before a step of a proof: what it may cite, and which symbols are taken.
#![tactic(auto)]

mod citing;
mod scope;
mod symbols;

pub use citing::cite;
pub use scope::{Labelled, Scope};
pub use symbols::mentions;

//! The order of the terms of a store.
#![tactic(auto)]

mod comparing;
mod heads;
mod parts;

pub use comparing::compare;

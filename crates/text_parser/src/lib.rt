//! The tree of a text, or its first fault.
#![tactic(auto)]

mod places;
mod text;

pub use text::{ParseEnd, parse};

//! Lists among the tokens of an argument: the front of a sequence, and the types of the members of a list. Each answer is the only one.
#![tactic(auto)]

mod heads;
mod parts;

pub use heads::{Head, sequence_head};
pub use parts::{NextPart, Parts};

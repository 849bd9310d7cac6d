//! The first fault of the tokens of a text, told by where they are refused and by what may come there.
//!
//! Where a token is refused, its code goes by the tokens before it and by what may come in its place: a label, the word
//! `Invariant`, an operand, or something else.
#![tactic(auto)]

mod faults;
mod kinds;

pub use faults::{bad_fault, first_fault};
